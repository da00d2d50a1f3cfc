// What a state holds and what document 01 says that an event leaves of it, written by hand for one book and without any code of the watch:
// `vars d s`, open 5 d, fill 1 d s, close 6 d, reset 8 _, `match open fill close`. For the program `lent_damage`.
#![tactic(auto)]

pub mod drawn;
pub mod entries;
pub mod events;
pub mod moves;
#[cfg(test)]
mod tests;
