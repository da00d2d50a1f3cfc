// No function: what the words say that stand beside the theorems of other crates and in their statements.
#![tactic(auto)]
