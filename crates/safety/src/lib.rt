// What a map that its program cannot leave promises of every run: it ties the verifier's rule to the step.
// Definitions and theorems; the verifier finds such a map.
#![tactic(auto)]
