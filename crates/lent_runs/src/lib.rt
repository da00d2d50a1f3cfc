// No function: lists of lent calls and what is promised of them are in specs/, the theorems in proofs/; the crate lent has the calls.
#![tactic(auto)]
