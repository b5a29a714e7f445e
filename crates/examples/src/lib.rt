// No code: the table of examples and the longest reports, which the checker computes, as theorems in proofs/.
#![tactic(auto)]
