// One case of the program `lent_damage`: the words, bytes and numbers that are lent to the event call, drawn at random, and all that document 01
// and the description of the blocks say that the call leaves. Written by hand, without any code of the watch or of its blocks.
#![tactic(auto)]

pub mod books;
pub mod layout;
pub mod leaving;
pub mod lending;
pub mod states;
#[cfg(test)]
mod tests;
