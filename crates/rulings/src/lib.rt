// What the verifier says of each program of a pack, and so what a whole pack is answered: definitions and laws that the report and the
// admission share, and no code.
#![tactic(auto)]
