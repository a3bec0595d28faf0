// What document 02, item 10 claims, the 2,048 em, stated in specs/ over the definitions that contracts cite, and shown in proofs/.
#![tactic(auto)]
