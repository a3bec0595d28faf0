// What document 02, item 12 claims, a sheet run under one allowance, stated in specs/ over the definitions that contracts cite, and shown in proofs/.
#![tactic(auto)]
