// The claims: the three demands, what each call gives and the whole way, stated in specs/ over the definitions that contracts cite, and shown in proofs/.
#![tactic(auto)]
