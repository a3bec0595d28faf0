// What the requests of document 02 claim, one file an item, stated in specs/ over the definitions that contracts cite, and shown in proofs/.
#![tactic(auto)]
