// What document 01 says that an event call leaves, beside the state: the answer, the count of rows, the tally and the buffer. For the program
// `lent_damage`; what is left of the state is in `states`.
use crate::books::Damage;
use crate::lending::Case;
use corrupted::cases::Space;
use corrupted::records;
use corrupted::sizes::{MOST_EVENTS, ROW};
use oracle::events::Symbol;
use oracle::moves::{Move, Outcome};

// How many rows the event has: none where the book's words end at position 1.
pub fn rows(c: &Case, o: &Outcome) -> usize {
    match c.damages.book {
        Some(Damage::Ended) => 0,
        _ => o.row_count(),
    }
}

// Whether a row would leave `s` free: that of `open`, where the book's words end at position 1.
fn leaves_free(c: &Case, m: Move, o: &Outcome) -> bool {
    match c.damages.book {
        Some(Damage::Ended) => m.symbol == Some(Symbol::Open),
        _ => o.leaves_free(),
    }
}

// "Events: 9 to 13 in that order." 9 "also covers a row that would leave a variable free".
pub fn refusal(c: &Case, m: Move, o: &Outcome, s: Space) -> Option<usize> {
    let k = c.damages;
    if k.book.is_some_and(|d| d.is_unsound()) || k.state.is_some() {
        return Some(9);
    }
    if k.record.is_some() {
        return Some(10);
    }
    if leaves_free(c, m, o) {
        return Some(9);
    }
    if c.number == MOST_EVENTS {
        return Some(11);
    }
    if !o.room {
        return Some(12);
    }
    if !s.fits(rows(c, o)) {
        return Some(13);
    }
    None
}

// Refused: one more refused. Accepted: one more accepted, and the rows. "a counter stops at the largest 64-bit value"
pub fn tally(t: [u64; 3], accepted: bool, rows: usize) -> [u64; 3] {
    let [a, r, n] = t;
    if accepted {
        [a.saturating_add(1), r, n.saturating_add(rows as u64)]
    } else {
        [a, r.saturating_add(1), n]
    }
}

// The rows of the event with a number, one behind the other from the place on.
pub fn put_rows(out: &mut [u8], place: usize, number: u32, m: Move, o: &Outcome) {
    if let Some(room) = out.get_mut(place..) {
        for (row, s) in room.chunks_exact_mut(ROW).zip(o.rows()) {
            row.copy_from_slice(&records::row(number, m.a, s.unwrap_or(0)));
        }
    }
}
