// No code: what the bench promises, as theorems in proofs/.
#![tactic(auto)]
