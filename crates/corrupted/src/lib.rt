// What the programs `damage` and `lent_damage` lend: books, states and records of events, sound ones and ones with one kind of damage; and
// the count of the answers that they get.
#![tactic(auto)]

pub mod amounts;
pub mod answered;
pub mod books;
pub mod cases;
pub mod records;
pub mod sizes;
pub mod states;
