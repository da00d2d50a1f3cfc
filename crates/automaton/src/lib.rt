// The theorems about the meaning are in proofs; this crate has no code and no definition.
#![tactic(auto)]
