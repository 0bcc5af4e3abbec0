// The sizes that the C face promises: statements in specs/, their proofs in proofs/, and no code.
#![tactic(auto)]
