// What the numbers of the C face tell: statements in specs/, their proofs in proofs/, and no code.
#![tactic(auto)]
