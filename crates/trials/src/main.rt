// Random books and traces: every row that the watch lists is compared with those of a second matcher, which works from whole traces
// by the declarative meaning; then a reordered copy of each trace is run and partners are compared. Prints what was compared.
#![tactic(auto)]

use book::Book;
use std::io;
use tally::Tally;
use trial::{BUFFER_BYTES, EVENTS, Trial};

// 4,000 books, and two traces to each that is accepted. A trace has three runs.
const TRIALS: u64 = 8000;

// The answers to a record: 0, and document 01's to one that is refused.
const ANSWERS: usize = 16;

const REFUSALS: usize = 9;

const LAST_REFUSAL: usize = 13;

// Calls by their answers, but those that were not as they should be, and those; traces and rows.
#[derive(Drop)]
struct Score {
    answered: [u32; ANSWERS],
    differences: u32,
    traces: u32,
    rows: usize,
}

impl Score {
    // A call, and whether it was as it should be.
    fn count(&mut self, right: bool, answer: usize, rows: usize) {
        if !right {
            self.differences = self.differences.saturating_add(1);
        } else if let Some(n) = self.answered.get_mut(answer) {
            *n = n.saturating_add(1);
        }
        self.rows = self.rows.saturating_add(rows);
    }

    fn report(&self, rt: &impl Print) -> io::Result<()> {
        let Score {
            answered,
            differences,
            traces,
            rows,
        } = self;
        let books = traces / 2;
        println!(rt; "{books} books")?;
        println!(rt; "{traces} traces, three runs of each")?;
        println!(rt; "{rows} rows")?;
        line(rt, answered[0], 0)?;
        for number in REFUSALS..=LAST_REFUSAL {
            line(rt, answered[number], number)?;
        }
        println!(rt; "{differences} differences")
    }
}

fn line(rt: &impl Print, n: u32, number: usize) -> io::Result<()> {
    println!(rt; "{n} answered {number}")
}

fn main(rt: HostRuntime) -> io::Result<()> {
    let mut score = Score {
        answered: [0; ANSWERS],
        differences: 0,
        traces: 0,
        rows: 0,
    };
    for i in 0..TRIALS {
        judged(i, &mut score);
    }
    score.report(&rt)
}

// A first run tells which events are accepted, so that the second matcher can list their rows; in the second run these are compared;
// the third has the events in another order.
fn judged(i: u64, score: &mut Score) {
    let mut trial = invented::trial(i);
    let text = invented::text(&trial.book);
    let reading = watch::read(&text);
    if book::number_of(reading.answer) != 0 {
        return;
    }
    score.traces = score.traces.saturating_add(1);
    run(reading.book, &mut trial, score);
    second::rows(&mut trial);
    run(reading.book, &mut trial, score);
    second::reorder(&mut trial);
    run(reading.book, &mut trial, score);
}

// The events of the trial in order, from the fresh state on.
fn run(book: Book, trial: &mut Trial, score: &mut Score) {
    let mut state = watch::fresh();
    let mut tally = Tally::none();
    for i in 0..EVENTS {
        let Some(event) = trial.event(i) else {
            return;
        };
        let place = event.place;
        let mut rows = [255u8; BUFFER_BYTES];
        let t = watch::event(book, state, event.sent(), &mut rows, place, tally);
        state = t.state;
        tally = t.tally;
        let answer = watch::number_of(t.answer);
        let listing = rows.get(place..).unwrap_or(&[]);
        let right = second::note(trial, i, answer == 0, t.rows, listing);
        score.count(right, answer, t.rows);
    }
}
