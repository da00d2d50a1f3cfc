// What an event call on a set must answer, and which states it must leave, by the plain call on each book alone. For the runs of a set.
use crate::call::{Answered, Call, States};
use lent_set::{BOOK_WORDS, BOOKS, STATE_WORDS, TALLY_WORDS};
use trial::BUFFER_BYTES;

// "13 for a row buffer too short", "14 for a set of no books or more than 8", and 9 for a book that is not wholly lent.
const UNSOUND: usize = 9;

pub const NO_SPACE: usize = 13;

pub const BAD_COUNT: usize = 14;

// Why no book takes an event: what the count, or the lowest-numbered refusing book, answers; or the rows have no space, be it those of a book by
// themselves or only those of all books together.
#[derive(Clone, Copy)]
pub enum Refusal {
    Number(usize),
    NoSpace,
    NoSpaceTogether,
}

impl Refusal {
    pub fn number(self) -> usize {
        match self {
            Refusal::Number(n) => n,
            Refusal::NoSpace | Refusal::NoSpaceTogether => NO_SPACE,
        }
    }
}

// How many rows there are.
pub type Expected = Result<usize, Refusal>;

pub fn answered(expected: Expected) -> Answered {
    match expected {
        Ok(rows) => Answered { answer: 0, rows },
        Err(refusal) => Answered {
            answer: refusal.number(),
            rows: 0,
        },
    }
}

// Whether the rows of each book by themselves have space.
pub fn apart(expected: Expected) -> bool {
    matches!(expected, Ok(_) | Err(Refusal::NoSpaceTogether))
}

// The plain call on one book, whose state becomes the next: how many rows.
fn plain(book: &[u32; BOOK_WORDS], state: &mut [u32; STATE_WORDS], bytes: &[u8]) -> Expected {
    let mut rows = [0; BUFFER_BYTES];
    let mut tally = [0; TALLY_WORDS];
    let mut n = 0;
    match lent::watch_event(book, state, bytes, &mut rows, 0, &mut tally, &mut n) {
        0 => Ok(n),
        answer => Err(Refusal::Number(answer)),
    }
}

// The states become the next where the event is taken. The lowest-numbered refusing book decides; then the space for the rows of all books together.
pub fn expected(call: &Call, states: &mut States) -> Expected {
    if call.count == 0 || BOOKS < call.count {
        return Err(Refusal::Number(BAD_COUNT));
    }
    let (books, _) = call.books.as_chunks::<BOOK_WORDS>();
    let mut rows: usize = 0;
    let mut apart = true;
    for (book, state) in books.iter().zip(states.iter_mut()).take(call.count) {
        let n = plain(book, state, call.bytes)?;
        rows = rows.saturating_add(n);
        apart = apart && call.fits(n);
    }
    if books.len() < call.count {
        Err(Refusal::Number(UNSOUND))
    } else if call.fits(rows) {
        Ok(rows)
    } else if apart {
        Err(Refusal::NoSpaceTogether)
    } else {
        Err(Refusal::NoSpace)
    }
}
