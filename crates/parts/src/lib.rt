// No code: what an event over several parts gives, in lent words too, is defined in specs/; laws are in proofs/.
#![tactic(auto)]
