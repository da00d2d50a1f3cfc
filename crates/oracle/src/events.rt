// Events of the book drawn at random, for `block_cases`, and which symbol matches each. Most of them concern an entry that is held; some no symbol
// matches.
use crate::drawn;
use crate::entries::{Entry, Held, Second};
use corrupted::amounts;
use corrupted::records::Event;

#[derive(Clone, Copy, PartialEq, Eq)]
pub enum Symbol {
    Open,
    Fill,
    Close,
    Reset,
}

impl Symbol {
    // Which symbol matches an event; none where the kind or the count is another.
    pub fn matching(e: Event) -> Option<Symbol> {
        match (e.kind, e.count) {
            (5, 1) => Some(Symbol::Open),
            (1, 2) => Some(Symbol::Fill),
            (6, 1) => Some(Symbol::Close),
            (8, 1) => Some(Symbol::Reset),
            _ => None,
        }
    }
}

// A value of `d`: that of the entry, or any.
fn first(seed: u64, e: Entry) -> u32 {
    match draws::below(seed, 31, 8) {
        0 => amounts::short(amounts::amount(seed, 32)),
        1 => drawn::raised(
            drawn::least(seed, drawn::LEAST_D),
            draws::below(seed, 34, 300),
        ),
        _ => e.d,
    }
}

// A value of `s`: one that the entry has or excludes, one near these, or any.
fn second(seed: u64, e: Entry) -> u32 {
    match draws::below(seed, 35, 8) {
        0 => amounts::short(amounts::amount(seed, 37)),
        1..=2 => number(e.s, draws::below(seed, 36, 6) as usize),
        3..=4 => number(e.s, 0),
        _ => drawn::raised(
            drawn::least(seed, drawn::LEAST_S),
            draws::below(seed, 39, 14),
        ),
    }
}

// The value, or the one that is excluded in place i; 0 where there is none.
fn number(s: Second, i: usize) -> u32 {
    match s {
        Second::Value(x) if i == 0 => x,
        Second::Value(_) => 0,
        Second::Free(excluded) => excluded.values().get(i).copied().unwrap_or(0),
    }
}

// An event that no symbol matches.
fn other(seed: u64, a: u32, b: u32) -> Event {
    match draws::below(seed, 41, 4) {
        0 => Event::one(1, a),
        1 => Event::two(6, a, b),
        2 => Event::two(8, a, b),
        _ => Event::two(9, a, b),
    }
}

pub fn drawn(seed: u64, h: &Held) -> Event {
    let held = h.entries();
    let i = draws::below(seed, 30, held.len() as u64) as usize;
    let e = held.get(i).copied().unwrap_or_default();
    let a = first(seed, e);
    let b = second(seed, e);
    match draws::below(seed, 40, 16) {
        0..=3 => Event::one(5, a),
        4..=9 => Event::two(1, a, b),
        10..=13 => Event::one(6, a),
        14 => Event::one(8, a),
        _ => other(seed, a, b),
    }
}
