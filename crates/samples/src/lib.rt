// Facts only: what the definitions of texts and books compute. See proofs/.
#![tactic(auto)]
