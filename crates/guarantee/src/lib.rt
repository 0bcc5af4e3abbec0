// The demands on the product and the marked examples: statements in specs/, their proofs in proofs/, and no code.
#![tactic(auto)]
