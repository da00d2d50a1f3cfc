// Runs of a set: the events in their order, from fresh states on, each held to the plain calls and to the second matcher. For the program `set_trials`.
use crate::alone::{self, BAD_COUNT, Expected};
use crate::call::{Answered, Buffer, Call, Row, States, Tally};
use crate::chosen::SetOf;
use crate::score::Score;
use lent_set::{BOOK_WORDS, BOOKS, STATE_WORDS, TALLY_WORDS};
use row::ROW;
use trial::{BUFFER_BYTES, EVENTS, Event, Trial};

// What the bytes of a row buffer are before a call, and the words of the states before a run.
const BLANK: u8 = 255;

const OTHER: u32 = 7;

// The byte of a row that has the book's number; and the word of a state that has its event number.
const BOOK_BYTE: usize = 5;

const NUMBER: usize = 1;

// The states and the tally that a run is at, and what was compared in all runs.
#[derive(Clone, Copy)]
pub struct Runs {
    states: States,
    tally: Tally,
    pub score: Score,
}

impl Runs {
    pub fn none() -> Runs {
        Runs {
            states: [[OTHER; STATE_WORDS]; BOOKS],
            tally: [0; TALLY_WORDS],
            score: Score::none(),
        }
    }

    // The events of a set in their order, from fresh states on.
    pub fn run<const N: usize>(&mut self, set: &mut SetOf<N>) {
        let count = set.trials().len();
        self.start(count);
        for i in 0..EVENTS {
            let Some(event) = set.trials().first().and_then(|t| t.event(i)).copied() else {
                return;
            };
            self.refusals(&event, set.books.as_flattened(), count, i);
            self.event(&event, set, i);
        }
        let numbered = self.numbered(count);
        self.score.hold(numbered);
    }

    fn start(&mut self, count: usize) {
        self.states = [[OTHER; STATE_WORDS]; BOOKS];
        self.tally = [0; TALLY_WORDS];
        self.fresh(0, BAD_COUNT);
        self.fresh(BOOKS + 1, BAD_COUNT);
        self.fresh(count, 0);
    }

    // Fresh states for so many books, held to the plain call's; with a count that no set has nothing is written.
    fn fresh(&mut self, count: usize, answer: usize) {
        let mut next = self.states;
        if answer == 0 {
            for state in next.iter_mut().take(count) {
                lent::watch_fresh(state);
            }
        }
        let a = lent_set::watch_set_fresh(self.states.as_flattened_mut(), count);
        self.score.hold(a == answer && self.states == next);
    }

    // Calls with a count that no set has, and with a last book that lacks a word.
    fn refusals(&mut self, event: &Event, books: &[u32], count: usize, i: usize) {
        let mut rows = [BLANK; BUFFER_BYTES];
        self.called(&Call::of(event, books, bad_count(i)), &mut rows);
        if let Some(end) = count.saturating_mul(BOOK_WORDS).checked_sub(1) {
            if let Some(less) = books.get(..end) {
                let mut rows = [BLANK; BUFFER_BYTES];
                self.called(&Call::of(event, less, count), &mut rows);
            }
        }
    }

    // Event number i of the run, and what is noted of it.
    fn event<const N: usize>(&mut self, event: &Event, set: &mut SetOf<N>, i: usize) {
        let mut rows = [BLANK; BUFFER_BYTES];
        let call = Call::of(event, set.books.as_flattened(), set.trials().len());
        let answered = self.called(&call, &mut rows);
        let listed = listed(&rows, event.place, answered.rows);
        self.score.hold(listed.len() == answered.rows);
        self.note(set.trials_mut(), i, answered.answer == 0, listed);
    }

    // A call, held to the plain calls: its answer, rows, states and tally, and the bytes around the rows.
    fn called(&mut self, call: &Call, rows: &mut Buffer) -> Answered {
        let mut next = self.states;
        let expected = alone::expected(call, &mut next);
        if expected.is_err() {
            next = self.states;
        }
        let tally = tally_after(self.tally, expected);
        let answered = call.made(&mut self.states, rows, &mut self.tally);
        self.score.call(expected, answered);
        let right = answered == alone::answered(expected)
            && self.states == next
            && self.tally == tally
            && blank_around(rows, call.place, answered.rows);
        self.score.hold(right);
        answered
    }

    // The rows of a call, book by book, noted in the trials, and no others.
    fn note(&mut self, trials: &mut [Trial], i: usize, accepted: bool, listed: &[Row]) {
        let mut rest = listed;
        for (k, trial) in trials.iter_mut().enumerate() {
            let (own, behind) = rows_of(rest, k);
            let right = second::note(trial, i, accepted, own.len(), own.as_flattened());
            self.score.hold(right);
            rest = behind;
        }
        self.score.hold(rest.is_empty());
    }

    // Whether each state has the number of events that the tally has.
    fn numbered(&self, count: usize) -> bool {
        let accepted = self.tally[0];
        (self.states.iter().take(count)).all(|state| u64::from(state[NUMBER]) == accepted)
    }
}

// A count that no set has: no book, nine, and more than there can be.
fn bad_count(i: usize) -> usize {
    match i % 3 {
        0 => 0,
        1 => BOOKS + 1,
        _ => usize::MAX,
    }
}

// One event more, accepted or refused, and its rows.
fn tally_after(before: Tally, expected: Expected) -> Tally {
    let [accepted, refused, rows] = before;
    match expected {
        Ok(n) => [
            accepted.saturating_add(1),
            refused,
            rows.saturating_add(n as u64),
        ],
        Err(_) => [accepted, refused.saturating_add(1), rows],
    }
}

// Whether all bytes of the row buffer but those of so many rows from a place on are as they were.
fn blank_around(rows: &Buffer, place: usize, count: usize) -> bool {
    let end = place.saturating_add(count.saturating_mul(ROW));
    let before = rows.iter().take(place);
    let behind = rows.iter().skip(end);
    before.chain(behind).all(|b| *b == BLANK)
}

// So many rows from a place on; none where there are not so many.
fn listed(rows: &Buffer, place: usize, count: usize) -> &[Row] {
    let (rows, _) = rows.get(place..).unwrap_or(&[]).as_chunks::<ROW>();
    rows.get(..count).unwrap_or(&[])
}

// The rows from the first on that are of book k, and those behind.
fn rows_of(rows: &[Row], k: usize) -> (&[Row], &[Row]) {
    match rows.iter().position(|row| usize::from(row[BOOK_BYTE]) != k) {
        Some(n) => rows.split_at(n),
        None => (rows, &[]),
    }
}
