// What the request asks of stock words, stated of calls of LINK: no listed token is left, the linked text reads and runs as a plan, and
// LINK answers 26 and 17 exactly when it should. Nothing is done here. specs/ has the terms, and proofs/ has the theorems.
#![tactic(auto)]
