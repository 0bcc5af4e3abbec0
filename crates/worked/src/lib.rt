// Every operation, fault and order of checks in rows worked by hand from the rules: statements in specs/, their proofs in proofs/, and no code.
#![tactic(auto)]
