// Laws only: the theorem that the reader answers the least fault of a text. See proofs/.
#![tactic(auto)]
