// Definitions and one theorem: see specs/ and proofs/.
#![tactic(auto)]
