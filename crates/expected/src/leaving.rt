// What document 01 says that an event call leaves: the answer, the count of rows, the state, the tally and the buffer. Written by hand
// from the document for the events of moves.rt, without any code of the watch.
use crate::lending::Damages;
use crate::moves::{Effect, Move};
use corrupted::books::Damage;
use corrupted::cases::Space;
use corrupted::sizes::{BUFFER, MOST_EVENTS};
use corrupted::{amounts, records, states};
use state::State;
use tally::Tally;

// What document 01 says that a call leaves, beside the buffer; the answer by its number there.
#[derive(Clone, Copy)]
pub struct Left {
    pub answer: usize,
    pub rows: usize,
    pub state: State,
    pub tally: Tally,
}

// How many rows the event has: none where the book's words end at position 1.
fn rows_of(k: Damages, m: Move) -> usize {
    (m.has_row() && k.book != Some(Damage::Ended)) as usize
}

// "Events: 9 to 13 in that order." 9 "also covers a row that would leave a variable free": `open` where words end at position 1.
fn refusal(k: Damages, m: Move, s: Space) -> Option<usize> {
    if k.book.is_some_and(|d| d.is_unsound()) || k.state.is_some() {
        return Some(9);
    }
    if k.record.is_some() {
        return Some(10);
    }
    if k.book == Some(Damage::Ended) && m.opens() {
        return Some(9);
    }
    if m.held.number == MOST_EVENTS {
        return Some(11);
    }
    if matches!(m.effect, Effect::NoRoom) {
        return Some(12);
    }
    if !s.fits(rows_of(k, m)) {
        return Some(13);
    }
    None
}

// The state after an accepted event.
fn state_after(m: Move) -> State {
    let mut s = states::clean(m.held);
    s.number = amounts::up(m.held.number);
    match m.effect {
        Effect::Puts { at, disjunct, .. } => states::changed(s, at, disjunct),
        _ => s,
    }
}

// Refused: "all unchanged" but the refused counter. Accepted: the next state, one more accepted, the row counted. "a counter stops at the
// largest 64-bit value"
pub fn told(k: Damages, m: Move, s: Space, state: State, t: Tally) -> Left {
    if let Some(answer) = refusal(k, m, s) {
        let tally = Tally {
            refused: t.refused.saturating_add(1),
            ..t
        };
        return Left {
            answer,
            rows: 0,
            state,
            tally,
        };
    }
    let rows = rows_of(k, m);
    Left {
        answer: 0,
        rows,
        state: state_after(m),
        tally: Tally {
            accepted: t.accepted.saturating_add(1),
            rows: t.rows.saturating_add(rows as u64),
            ..t
        },
    }
}

// The buffer with the event's row from its place on, where it has one.
pub fn buffer_after(before: [u8; BUFFER], rows: usize, m: Move, place: usize) -> [u8; BUFFER] {
    let mut r = before;
    if 0 < rows {
        let [a, b, _] = m.event.arguments;
        let row = records::row(amounts::up(m.held.number), a, b);
        for (to, from) in r.iter_mut().skip(place).zip(row) {
            *to = from;
        }
    }
    r
}
