// Theorems only: what the definitions of the crate calls say of lists of calls, the three demands.
#![tactic(auto)]
