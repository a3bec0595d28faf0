// What document 02, item 13 claims, what a sheet will take, stated in specs/ over the definitions that contracts cite, and shown in proofs/.
#![tactic(auto)]
