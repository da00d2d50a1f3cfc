// Laws only: what the reader answers, in terms of the stated form of texts.
#![tactic(auto)]
