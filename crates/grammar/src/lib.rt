// Document 01's grammar of a description, in its own words, and that lines are read by it; shown in proofs/.
#![tactic(auto)]
