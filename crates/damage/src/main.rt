// Damaged books, states, records, places, buffers and tallies, from a generator with a fixed start, are lent to the event call, and all
// that it leaves is compared with what document 01 says. Prints how many cases there were, how they were answered, and the differences.
#![tactic(auto)]

use book::Book;
use corrupted::answered::Answered;
use corrupted::cases::Space;
use corrupted::records::Event;
use corrupted::sizes::{BUFFER, ROW};
use corrupted::{amounts, states};
use expected::leaving::Left;
use expected::{leaving, lending, moves};
use state::State;
use std::io;
use tally::Tally;
use watch::Taken;

const CASES: u32 = 20000;

// How many cases there were, how the calls were answered, and how many left something else than they must.
#[derive(Clone, Copy, Default)]
struct Score {
    cases: u32,
    answered: Answered,
    differences: u32,
}

// The call with so many bytes of the buffer.
fn call(book: Book, state: State, record: &[u8], rows: &mut [u8], s: Space, tally: Tally) -> Taken {
    let size = s.size.min(rows.len());
    watch::event(book, state, record, &mut rows[..size], s.place, tally)
}

// Whether answer, row count, book, state and tally are as they must be.
fn as_told(r: Taken, l: Left, book: Book) -> bool {
    watch::number_of(r.answer) == l.answer
        && r.rows == l.rows
        && r.tally == l.tally
        && r.book == book
        && r.state == l.state
}

// What an answer counts as: any that document 01 doesn't have, as the last.
fn counted(answer: usize) -> usize {
    match answer {
        0 | 9..=12 => answer,
        _ => 13,
    }
}

// One case: what is lent is drawn, the call is made, and what it leaves is compared.
fn one(seed: u64, read: Book, score: &mut Score) {
    let drawn = moves::drawn(seed);
    let k = lending::drawn_damages(seed, drawn);
    let m = lending::meant(seed, drawn, k.book);
    let s = lending::drawn_space(seed);
    let book = lending::lent_book(seed, read, k.book);
    let state = lending::lent_state(seed, m, k.state);
    let tally = lending::lent_tally(seed);
    let lent = lending::lent_record(seed, m, k);
    let l = leaving::told(k, m, s, state, tally);
    let mut rows = [0; BUFFER];
    lending::fill(seed, &mut rows);
    let want = leaving::buffer_after(rows, l.rows, m, s.place);
    let r = call(book, state, lent.bytes(), &mut rows, s, tally);
    score.cases = amounts::up(score.cases);
    score.answered.count(counted(watch::number_of(r.answer)));
    if !as_told(r, l, book) || rows != want {
        score.differences = amounts::up(score.differences);
    }
}

// An event taken in the ordinary way.
fn after(book: Book, state: State, e: Event) -> State {
    let mut rows = [0; ROW];
    let s = Space {
        size: ROW,
        place: 0,
    };
    call(book, state, e.record().bytes(), &mut rows, s, Tally::none()).state
}

// Whether the states `two` and `six` are those that the watch reaches from the fresh one.
fn reached(book: Book) -> bool {
    let one = after(book, watch::fresh(), Event::one(5, 1));
    let mut two = after(book, one, Event::one(5, 2));
    for x in [7, 9] {
        two = after(book, two, Event::two(1, 1, x));
    }
    let mut six = one;
    for x in [51, 61, 55, 57, 53, 59] {
        six = after(book, six, Event::two(1, 1, x));
    }
    two == states::clean(moves::two(4)) && six == states::clean(moves::six(7, 50))
}

fn report(rt: &impl Print, s: Score) -> io::Result<()> {
    println!(rt; "{} cases", s.cases)?;
    s.answered.report(rt)?;
    println!(rt; "{} differences", s.differences)
}

fn main(rt: HostRuntime) -> io::Result<()> {
    let r = watch::read(
        b"vars d s\nsym open 5 d\nsym fill 1 d s\nsym seal 6 d s\nmatch open seal\n",
    );
    let mut score = Score::default();
    if !reached(r.book) {
        score.differences = 1;
    }
    let mut seed: u64 = 20261115;
    for _ in 0..CASES {
        seed = draws::next(seed);
        one(seed, r.book, &mut score);
    }
    report(&rt, score)
}
