// No code: lists of calls on a set of books, and what is promised of them, are defined in specs/; the theorems are in proofs/.
#![tactic(auto)]
