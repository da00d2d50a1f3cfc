// A random trial: a book with its text, and events with their records. For `trials` and for the sets of `set_trials`. A number is drawn
// by the place that it is for, so that no two draws are the same: the symbols, the nodes and the events are numbered together, from 1, and
// each has eight places.
#![tactic(auto)]

ghost use Rattle.std.specs.Prelude.{◌<◌};

mod books;
mod events;
mod texts;

pub use events::records;
pub use texts::text;
use trial::Trial;

// The start of all draws, and the bound of the seeds.
const START: u64 = 20261115;

const SEEDS: u64 = 2147483647;

// Draws are for small numbers.
const SMALL: u64 = 65536;

// What of a symbol or an event a number is for: its kind, its arguments from the first on, and the place of its rows.
const PLACES: usize = 8;

const KIND: usize = 0;

const ARGUMENT: usize = 2;

const ROWS: usize = 7;

// Kinds of symbols and events, from 1, and counts.
const KINDS: u8 = 2;

const COUNTS: u8 = 4;

// The numbers of the first symbol, the first node and the first event.
const FIRST_SYMBOL: usize = 1;

const FIRST_NODE: usize = FIRST_SYMBOL + trial::SYMBOLS;

const FIRST_EVENT: usize = FIRST_NODE + trial::NODES;

// The seed of the book of trial number i: two traces to a book. And that of its trace.
fn book_of(i: u64) -> u64 {
    draws::below(START, i / 2, SEEDS)
}

fn trace_of(i: u64) -> u64 {
    draws::below(START + 1, i, SEEDS)
}

// Whether trial number i is of a book in which exclusions gather, and of a narrow trace, so that they do.
pub fn gathering(i: u64) -> bool {
    let book = book_of(i);
    books::gathering(book) && events::narrow(book)
}

// Trial number i.
pub fn trial(i: u64) -> Trial {
    let mut trial = trial_with(i, i);
    records(i, &mut trial.events);
    trial
}

// Trial number i with the events of trial number j, which may be of another book; their records are not made yet.
pub fn trial_with(i: u64, j: u64) -> Trial {
    Trial {
        book: books::book(book_of(i)),
        number: 0,
        events: events::events(book_of(j), trace_of(j)),
        order: std::array::from_fn(|e| e),
        listed: None,
    }
}

// A number below n; k tells several draws of one seed apart.
fn draw(seed: u64, k: usize, n: usize) -> usize
    ensures { result < 65536 }
{
    (draws::below(seed, k as u64, n as u64) % SMALL) as usize
}

fn small(seed: u64, k: usize, n: u8) -> u8 {
    (draws::below(seed, k as u64, u64::from(n)) % 256) as u8
}
