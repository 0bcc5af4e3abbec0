// What packs stand for, and why they are refused: statements in specs/, their proofs in proofs/, and no code.
#![tactic(auto)]
