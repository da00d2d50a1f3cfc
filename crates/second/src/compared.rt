// A run of the watch, call by call: the answers are noted, and the rows compared with those of the second matcher once these are known;
// and another order for a run, neighbours that concern no common valuation exchanged. For the programs `trials` and `set_trials`.
use crate::concern;
use row::ROW;
use trial::{ARGUMENTS, EVENTS, Trial};

// Bytes of a word, and where the values are in a row.
const WORD_BYTES: usize = 4;

const VALUES: usize = 2 * WORD_BYTES;

// Exchanges of neighbours that are tried, and how far apart one is from the next.
const EXCHANGES: usize = 60;

const APART: usize = 7;

// Call number i of a run is noted: whether it was accepted, how many rows, and the buffer from their place on. Once the rows are known,
// a refused record is not sent whole again; and the answer is whether the second matcher says the same.
pub fn note(trial: &mut Trial, i: usize, accepted: bool, count: usize, rows: &[u8]) -> bool {
    let right = judged(trial, i, accepted, count, rows);
    let cut = !accepted && trial.listed.is_some();
    let e = trial.order.get(i).copied().unwrap_or(EVENTS);
    if let Some(event) = trial.events.get_mut(e) {
        event.accepted = accepted;
        event.cut = cut;
    }
    right
}

// Not where only now or only before it was accepted, or other rows are listed than the second matcher has, once it has been asked.
fn judged(trial: &Trial, i: usize, accepted: bool, count: usize, rows: &[u8]) -> bool {
    let Some(listed) = &trial.listed else {
        return true;
    };
    let Some(e) = trial.order.get(i) else {
        return false;
    };
    let before = trial.events.get(*e).is_some_and(|event| event.accepted);
    if !accepted || !before {
        return accepted == before;
    }
    rows.get(..count.saturating_mul(ROW)).is_some_and(|rows| are_listed(
        trial,
        listed,
        *e,
        event_number(trial, i),
        rows,
    ))
}

// The number of the event of call number i, which is accepted: one more than there were before.
fn event_number(trial: &Trial, i: usize) -> u8 {
    let mut n: u8 = 1;
    for e in trial.order.iter().take(i) {
        if trial.events.get(*e).is_some_and(|event| event.accepted) {
            n = n.saturating_add(1);
        }
    }
    n
}

// Whether the rows are those of the second matcher, in order, and no more: of the valuations of which a stretch ends behind the event's
// place in the first order.
fn are_listed(trial: &Trial, listed: &[u32], e: usize, number: u8, rows: &[u8]) -> bool {
    let mut rest = rows;
    for (code, ends) in listed.iter().enumerate().take(trial.book.valuations) {
        if ends >> (e % EVENTS + 1) & 1 == 1 {
            let Some((row, behind)) = rest.split_at_checked(ROW) else {
                return false;
            };
            if row != row_of(trial, code, number).as_slice() {
                return false;
            }
            rest = behind;
        }
    }
    rest.is_empty()
}

// The row of a valuation, in which all numbers are small: the event's number, the count of variables, the book's number in a set, the
// values.
fn row_of(trial: &Trial, code: usize, number: u8) -> [u8; ROW] {
    let mut row = [0; ROW];
    row[0] = number;
    row[WORD_BYTES] = (trial.book.variables % (ARGUMENTS + 1)) as u8;
    row[WORD_BYTES + 1] = trial.number;
    for (v, value) in trial.book.values(code).iter().enumerate() {
        row[VALUES + v * WORD_BYTES] = *value;
    }
    row
}

// Neighbours exchanged, again and again, unless some valuation is concerned by both.
pub fn reorder(trial: &mut Trial) {
    for k in 0..EXCHANGES {
        let at = k * APART % (EVENTS - 1);
        if !concern::dependent(trial, trial.order[at], trial.order[at + 1]) {
            trial.exchange(at);
        }
    }
}
