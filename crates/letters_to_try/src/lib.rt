// Document 01's "Letters to try", as lists and as descriptions, and its edges; floats and points, records, and lists with two points fixed, of
// document 02, items 2, 4 and 5; shown in proofs/.
#![tactic(auto)]
