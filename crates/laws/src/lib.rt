// No code: what no document mentions, defined in specs/ and proved in proofs/, for every other crate.
#![tactic(auto)]
