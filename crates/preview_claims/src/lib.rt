// What document 02, item 14 claims, how true the preview is, stated in specs/ over the definitions that contracts cite, and shown in proofs/.
#![tactic(auto)]
