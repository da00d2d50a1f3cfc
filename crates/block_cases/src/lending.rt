// What is lent to the event call in one case, drawn from the seed of the case: which kinds of damage there are, the book, the state, the record, the
// tally, and the buffer with the place from which rows go into it.
use crate::{books, layout, states};
use corrupted::cases::Space;
use corrupted::records::{Event, Lent};
use corrupted::sizes::{MOST_EVENTS, ROW};
use corrupted::{amounts, cases, records};
use oracle::entries::Held;
use oracle::events;
use oracle::events::Symbol;
use oracle::moves::Move;

// Room for 128 rows, and for what must stay around them.
pub const BUFFER: usize = 3200;

pub type Damages = cases::Damages<books::Damage, states::Damage>;

// What is held after so many accepted events, the event, and the damage.
#[derive(Clone, Copy)]
pub struct Case {
    pub number: u32,
    pub held: Held,
    pub event: Event,
    pub damages: Damages,
}

// A state is damaged only where it holds as many disjuncts as that needs.
fn drawn_damages(seed: u64, held: usize) -> Damages {
    Damages {
        book: amounts::kind(seed, 60, 5, &books::Damage::ALL),
        state: amounts::kind(seed, 62, 5, &states::Damage::ALL).filter(|d| d.needed() <= held),
        record: amounts::kind(seed, 64, 5, &records::Damage::ALL),
    }
}

// The event number: any up to the last.
fn number(seed: u64) -> u32 {
    match draws::below(seed, 66, 8) {
        0 => MOST_EVENTS,
        1 => MOST_EVENTS - 1,
        2 => amounts::short(draws::below(seed, 67, 1000000)),
        _ => amounts::short(draws::below(seed, 68, 300)),
    }
}

pub fn drawn(seed: u64) -> Case {
    let held = oracle::drawn::held(seed);
    let event = events::drawn(seed, &held);
    let damages = drawn_damages(seed, held.entries().len());
    Case {
        number: number(seed),
        held,
        event,
        damages,
    }
}

// How much a book is damaged. A fixed number is as much; what the event has there is the same, one time in two, or differs in one bit.
fn much(seed: u64) -> u64 {
    amounts::amount(seed, 70)
}

fn given(seed: u64) -> u32 {
    amounts::near(seed, 72, amounts::short(much(seed)))
}

// What the event does: nothing where its argument differs from the fixed number.
pub fn meant(seed: u64, c: &Case) -> Move {
    let [a, b, _] = c.event.arguments;
    let passes = c.damages.book == Some(books::Damage::Fixed)
        && given(seed) != amounts::short(much(seed));
    Move {
        symbol: if passes {
            None
        } else {
            Symbol::matching(c.event)
        },
        a,
        b,
    }
}

// What fills the words that no count reaches: zeros, one time in two.
fn spare(seed: u64, k: u64) -> u64 {
    match draws::below(seed, k, 2) {
        0 => 0,
        _ => amounts::amount(seed, k % 1000 + 1),
    }
}

pub fn put_book(seed: u64, c: &Case, words: &mut [u32]) {
    let y = draws::below(seed, 78, 1000000);
    layout::fill(words, spare(seed, 75));
    books::put_book(words);
    books::put_damaged(words, c.damages.book, much(seed), y);
}

pub fn put_state(seed: u64, c: &Case, words: &mut [u32]) {
    let x = amounts::amount(seed, 83);
    let y = draws::below(seed, 85, 1000000);
    layout::fill(words, spare(seed, 80));
    states::put_state(words, c.number, &c.held);
    states::put_damaged(words, &c.held, c.damages.state, x, y);
}

// The event's record, with the damage: with an argument more where the symbols have a fixed number.
pub fn record(seed: u64, c: &Case) -> Lent {
    let e = match c.damages.book {
        Some(books::Damage::Fixed) => c.event.with(c.event.count as u64, given(seed)),
        _ => c.event,
    };
    let x = amounts::amount(seed, 87);
    records::damaged(
        e.record(),
        c.damages.record,
        x,
        draws::below(seed, 89, 1000000),
    )
}

pub fn tally(seed: u64) -> [u64; 3] {
    [
        amounts::counter(seed, 91),
        amounts::counter(seed, 94),
        amounts::counter(seed, 97),
    ]
}

// Mostly room for all rows; else they just fit or not, the place is the end or just beyond it, or far beyond.
pub fn drawn_space(seed: u64, rows: usize) -> Space {
    let need = rows % 129 * ROW;
    let place = draws::below(seed, 101, 100) as usize;
    let near = draws::below(seed, 102, 2) as usize;
    let (size, place) = match draws::below(seed, 100, 12) {
        0 => (place + need, place),
        1 => (place + need, place + 1),
        2 => (place, place + near),
        3 => (place, amounts::amount(seed, 103) as usize),
        4 => (place * 30, place),
        _ => (BUFFER, place),
    };
    Space { size, place }
}

// The buffer, before the call.
pub fn fill(seed: u64, out: &mut [u8]) {
    for (i, b) in out.iter_mut().enumerate() {
        *b = amounts::byte(seed % 2147483648 / 64 + i as u64 % 65536 * 37);
    }
}
