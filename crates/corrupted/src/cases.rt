// What cases of both programs have: kinds of damage, and the buffer with the place from which rows go into it.
use crate::records;
use crate::sizes::ROW;

// The damage of one case, to a book and a state in the form in which they are lent, and to the record.
#[derive(Clone, Copy)]
pub struct Damages<B, S> {
    pub book: Option<B>,
    pub state: Option<S>,
    pub record: Option<records::Damage>,
}

// The buffer's length, and the place from which rows go into it.
#[derive(Clone, Copy)]
pub struct Space {
    pub size: usize,
    pub place: usize,
}

impl Space {
    // Whether so many rows, up to 128, fit from the place on; the place itself must not be beyond the end.
    pub fn fits(self, rows: usize) -> bool {
        self.place <= self.size && rows % 129 * ROW <= self.size - self.place
    }
}
