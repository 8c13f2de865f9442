// What the clerk asks of the roll, stated of calls over it: every cut reads, no job is done without its text, and the tally stays that of
// the roll. Nothing is done here. specs/ has the terms, and proofs/ has the theorems.
#![tactic(auto)]
