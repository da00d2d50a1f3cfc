// Damaged words of books and states, records, places, buffers and tallies, from a generator with a fixed start, are lent to the event call, and every
// word and byte that it leaves is compared with what document 01 and the description of the blocks say. Prints how many cases there were, how they
// were answered, the rows, how many events had several, how many states came to hold fewer disjuncts, and the differences.
#![tactic(auto)]

use block_cases::layout::{BOOK_WORDS, STATE_WORDS};
use block_cases::lending::{BUFFER, Case};
use block_cases::{books, leaving, lending, states};
use corrupted::amounts;
use corrupted::answered::Answered;
use corrupted::cases::Space;
use oracle::moves;
use oracle::moves::{Move, Outcome};
use std::io;

const CASES: u32 = 40000;

// How the calls were to be answered; then rows, events with several, states that hold fewer disjuncts, and differences.
#[derive(Clone, Copy, Default)]
struct Score {
    answered: Answered,
    rows: u32,
    several: u32,
    fewer: u32,
    differences: u32,
}

// All that is lent to the call beside the record, or left by it.
#[derive(Clone, Copy, PartialEq, Eq)]
struct Words {
    book: [u32; BOOK_WORDS],
    state: [u32; STATE_WORDS],
    rows: [u8; BUFFER],
    tally: [u64; 3],
    count: usize,
}

impl Words {
    // What is lent in a case.
    fn lent(seed: u64, c: &Case) -> Words {
        let mut w = Words {
            book: [0; BOOK_WORDS],
            state: [0; STATE_WORDS],
            rows: [0; BUFFER],
            tally: lending::tally(seed),
            count: 77,
        };
        lending::put_book(seed, c, &mut w.book);
        lending::put_state(seed, c, &mut w.state);
        lending::fill(seed, &mut w.rows);
        w
    }

    // What must be left of it: refused, all but the tally and the count of rows; accepted, also the next state and the rows.
    fn refuse(&mut self) {
        self.count = 0;
        self.tally = leaving::tally(self.tally, false, 0);
    }

    fn accept(&mut self, c: &Case, m: Move, o: &Outcome, place: usize) {
        let number = amounts::up(c.number);
        self.count = leaving::rows(c, o);
        self.tally = leaving::tally(self.tally, true, self.count);
        states::put_next(&mut self.state, number, &c.held, &o.held);
        if 0 < self.count {
            leaving::put_rows(&mut self.rows, place, number, m, o);
        }
    }
}

// The call with so many bytes of the record and of the buffer.
fn call(record: &[u8], s: Space, w: &mut Words) -> usize {
    let rows = &mut w.rows[..];
    let size = s.size.min(rows.len());
    lent::watch_event(
        &w.book,
        &mut w.state,
        record,
        &mut rows[..size],
        s.place,
        &mut w.tally,
        &mut w.count,
    )
}

// One case: what is lent is drawn, the call is made, and what it leaves is compared.
fn one(seed: u64, score: &mut Score) {
    let c = lending::drawn(seed);
    let m = lending::meant(seed, &c);
    let o = moves::after(&c.held, m);
    let s = lending::drawn_space(seed, leaving::rows(&c, &o));
    let mut words = Words::lent(seed, &c);
    let mut left = words;
    let refusal = leaving::refusal(&c, m, &o, s);
    match refusal {
        Some(_) => left.refuse(),
        None => left.accept(&c, m, &o, s.place),
    }
    let answer = refusal.unwrap_or(0);
    let record = lending::record(seed, &c);
    let answered = call(record.bytes(), s, &mut words);
    score.answered.count(answer);
    score.rows = score.rows.saturating_add(amounts::short(left.count as u64));
    if 1 < left.count {
        score.several = amounts::up(score.several);
    }
    if refusal.is_none() && o.held.entries().len() < c.held.entries().len() {
        score.fewer = amounts::up(score.fewer);
    }
    if answered != answer || words != left {
        score.differences = amounts::up(score.differences);
    }
}

fn report(rt: &impl Print, score: Score) -> io::Result<()> {
    println!(rt; "{CASES} cases")?;
    score.answered.report(rt)?;
    println!(rt; "{} rows", score.rows)?;
    println!(rt; "{} events with several rows", score.several)?;
    println!(rt; "{} states with fewer disjuncts", score.fewer)?;
    println!(rt; "{} differences", score.differences)
}

// Whether the words of the read book are those that are written here by hand.
fn as_read() -> bool {
    let mut book = [0; BOOK_WORDS];
    let mut read = [1; BOOK_WORDS];
    let mut place: usize = 1;
    let mut begins: usize = 0;
    let mut ends: usize = 0;
    books::put_book(&mut book);
    let answer = lent::watch_read(
        b"vars d s\nsym open 5 d\nsym fill 1 d s\nsym close 6 d\nsym reset 8 _\nmatch open fill close\n",
        &mut read,
        &mut place,
        &mut begins,
        &mut ends,
    );
    (answer, place, begins, ends) == (0, 0, 1, 1) && book == read
}

fn main(rt: HostRuntime) -> io::Result<()> {
    let mut score = Score::default();
    if !as_read() {
        score.differences = 1;
    }
    let mut seed: u64 = 20270115;
    for _ in 0..CASES {
        seed = draws::next(seed);
        one(seed, &mut score);
    }
    report(&rt, score)
}
