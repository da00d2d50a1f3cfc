// The full pool, as document 01 has it under "Roasts to check against": B1, load(1,1) to load(1,128): 0; load(1,129): 12; drop(1): 128
// rows; load(1,129): 12; clean(1), load(1,129): 0. Counts the calls that answered right, rows included.
use crate::records;
use crate::records::Bytes;
use crate::score::Score;
use book::Book;
use state::{CAPACITY, State};
use tally::Tally;
use writer::ROW;

// The last of as many events as a state has places for disjuncts, and a buffer for as many rows.
const LAST: u8 = 128;

const ROOM: usize = CAPACITY * ROW;

// Whether each row in the buffer is the event's number, two variables, 1 and the row's own number, from 1 on; each below 256.
fn are_rows(rows: &[u8], number: u8) -> bool {
    for (row, value) in rows.chunks_exact(ROW).zip(1..=LAST) {
        if (row[0], row[4], row[8], row[12]) != (number, 2, 1, value) {
            return false;
        }
    }
    true
}

// What was compared, and the state to go on from.
#[derive(Clone, Copy)]
struct Run {
    book: Book,
    state: State,
    score: Score,
}

impl Run {
    // One event: the answer, the row count and every row are compared.
    fn expect(&mut self, event: Bytes, answer: usize, count: usize) {
        let mut rows = [0; ROOM];
        let bytes = records::written(event);
        let t = handed::counted_event(self.book, self.state, &bytes, &mut rows, 0, Tally::none());
        let number = (t.state.number % 256) as u8;
        self.state = t.state;
        self.score.count(
            watch::number_of(t.answer) == answer
                && t.rows == count
                && are_rows(&rows[..count.min(CAPACITY) * ROW], number),
        );
    }
}

pub fn filled(book: Book) -> Score {
    let mut r = Run {
        book,
        state: handed::fresh(),
        score: Score::default(),
    };
    for i in 1..=LAST {
        r.expect([1, 2, 1, i], 0, 0);
    }
    r.expect([1, 2, 1, LAST + 1], 12, 0);
    r.expect([2, 1, 1, 0], 0, CAPACITY);
    r.expect([1, 2, 1, LAST + 1], 12, 0);
    r.expect([3, 1, 1, 0], 0, 0);
    r.expect([1, 2, 1, LAST + 1], 0, 0);
    r.score
}
