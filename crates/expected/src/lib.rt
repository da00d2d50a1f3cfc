// One case of the program `damage`: what is lent to the event call, drawn at random, and what document 01 says that the call leaves.
#![tactic(auto)]

pub mod leaving;
pub mod lending;
pub mod moves;
