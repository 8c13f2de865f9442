// What the request asks for, stated of calls of the services, in the request's own words and order; also that no call has a second answer,
// and an instance of every word used. Nothing is done here. specs/ has the request's terms, and proofs/ has one module for each demand.
#![tactic(auto)]
