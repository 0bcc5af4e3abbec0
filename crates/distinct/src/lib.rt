// That no two programs have one listing, and the example of a whole listing: statements in specs/, their proofs in proofs/, and no code.
#![tactic(auto)]
