// Calls on a set of random books, each held to what the plain call does with each book alone from the state that the set has of it; its rows are noted,
// book by book, for the second matcher. For the program `set_trials`.
#![tactic(auto)]

mod alone;
mod call;
mod calling;
mod chosen;
mod orders;
mod score;
#[cfg(test)]
mod tests;

pub use calling::Runs;
pub use chosen::{Set, SetOf};
pub use score::Score;
