// What was compared. For the program `set_trials`, which prints it.
use crate::alone::{self, Expected, NO_SPACE};
use crate::call::Answered;

// The answers to an event on a set: 0, and 9 to 14.
const ANSWERS: usize = 15;

// Sets and their books; calls by their answers, and those that the rows of all books together had no space for, though those of each by themselves had;
// rows; and what was not as it should be.
#[derive(Clone, Copy)]
pub struct Score {
    pub sets: u32,
    pub books: usize,
    pub answered: [u32; ANSWERS],
    pub together: u32,
    pub rows: usize,
    pub differences: u32,
}

impl Score {
    pub fn none() -> Score {
        Score {
            sets: 0,
            books: 0,
            answered: [0; ANSWERS],
            together: 0,
            rows: 0,
            differences: 0,
        }
    }

    // A set of so many books.
    pub fn set(&mut self, books: usize) {
        self.sets = self.sets.saturating_add(1);
        self.books = self.books.saturating_add(books);
    }

    // What must be so.
    pub fn hold(&mut self, right: bool) {
        if !right {
            self.differences = self.differences.saturating_add(1);
        }
    }

    // A call, which is to have answered as expected.
    pub fn call(&mut self, expected: Expected, answered: Answered) {
        if let Some(n) = self.answered.get_mut(answered.answer % ANSWERS) {
            *n = n.saturating_add(1);
        }
        if answered.answer == NO_SPACE && alone::apart(expected) {
            self.together = self.together.saturating_add(1);
        }
        self.rows = self.rows.saturating_add(answered.rows);
    }
}
