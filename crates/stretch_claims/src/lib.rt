// What document 02, item 11 claims, the widest stretch of a letter, stated in specs/ over the definitions that contracts cite, and shown in proofs/.
#![tactic(auto)]
