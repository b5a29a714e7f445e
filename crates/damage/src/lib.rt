// No code: what damage in a FASC-N does, as theorems in proofs/.
#![tactic(auto)]
