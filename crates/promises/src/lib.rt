// No function: what is promised of the results of the public calls is in specs/, its theorems in proofs/; the crate handed has the calls.
#![tactic(auto)]
