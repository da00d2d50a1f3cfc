// One event call on a set of books: what it is lent to read, and what it hands back. For the runs of a set.
use lent_set::{BOOKS, STATE_WORDS, TALLY_WORDS};
use row::ROW;
use trial::{BUFFER_BYTES, Event};

pub type States = [[u32; STATE_WORDS]; BOOKS];

pub type Tally = [u64; TALLY_WORDS];

pub type Buffer = [u8; BUFFER_BYTES];

pub type Row = [u8; ROW];

// The number of the answer, and how many rows.
#[derive(Clone, Copy, PartialEq)]
pub struct Answered {
    pub answer: usize,
    pub rows: usize,
}

// The words of the books and how many these are, the record, and how much of the row buffer is lent and from where on rows are written.
#[derive(Clone, Copy)]
pub struct Call<'a> {
    pub books: &'a [u32],
    pub count: usize,
    pub bytes: &'a [u8],
    pub space: usize,
    pub place: usize,
}

// How much of the row buffer is lent: all of it, or for one event in three what a few rows take from the place on.
fn space(place: usize) -> usize {
    if place % 3 == 0 {
        BUFFER_BYTES.min(place.saturating_add(place / 3 % 4 * ROW))
    } else {
        BUFFER_BYTES
    }
}

impl<'a> Call<'a> {
    pub fn of(event: &'a Event, books: &'a [u32], count: usize) -> Call<'a> {
        Call {
            books,
            count,
            bytes: event.sent(),
            space: space(event.place),
            place: event.place,
        }
    }

    // Whether so many rows have space.
    pub fn fits(&self, rows: usize) -> bool {
        self.place.saturating_add(rows.saturating_mul(ROW)) <= self.space
    }

    pub fn made(&self, states: &mut States, rows: &mut Buffer, tally: &mut Tally) -> Answered {
        let mut n = 0;
        let space = self.space.min(rows.len());
        let answer = lent_set::watch_set_event(
            self.books,
            states.as_flattened_mut(),
            self.count,
            self.bytes,
            &mut rows[..space],
            self.place,
            tally,
            &mut n,
        );
        Answered { answer, rows: n }
    }
}
