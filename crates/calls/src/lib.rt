// The types of what an event call hands back. What it is, for any call and along any list of calls, is defined in specs/; the theorems
// of the three demands are in the crate demands. No function: the calls themselves are in the crate watch.
#![tactic(auto)]

use book::Book;
use state::State;
use tally::Tally;

// The answers 0 and 9 to 13 of document 01.
#[derive(Clone, Copy)]
pub enum EventAnswer {
    Accepted,
    Unsound,
    OutOfForm,
    TooMany,
    NoRoom,
    NoSpace,
}

// What an event call hands back: the answer, the count of rows, and book, state and tally as they are then.
#[derive(Clone, Copy)]
pub struct Taken {
    pub answer: EventAnswer,
    pub rows: usize,
    pub book: Book,
    pub state: State,
    pub tally: Tally,
}
