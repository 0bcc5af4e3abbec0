// An admission stands for the bytes that have come, however they were cut: statements in specs/, their proofs in proofs/, and no code.
#![tactic(auto)]
