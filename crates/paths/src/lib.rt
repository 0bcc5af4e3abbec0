// The paths of a program and the walk along them, for any rule of what an address leads to.
// Definitions and theorems; the code that walks is the verifier's.
#![tactic(auto)]
