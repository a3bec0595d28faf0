// The rules of documents 01 and 02 as propositions, the row of them that each public call goes by, and the refusal due first; shown in proofs/.
#![tactic(auto)]
