// Events for four states of the book of `main`, and what document 01 says of each: its row, and the state that it leaves.
// The states: two partial matches with different values of `d`, two with the same, one with six exclusions, and the fresh one.
use corrupted::records::Event;
use corrupted::sizes::MOST_EVENTS;
use corrupted::states::Held;
use corrupted::{amounts, states};
use disjunct::Disjunct;

// What is held, the event, and what it does.
#[derive(Clone, Copy)]
pub struct Move {
    pub held: Held,
    pub event: Event,
    pub effect: Effect,
}

// A seventh exclusion would be needed; all but the event number stays; or a disjunct comes to stand at a place, with a row or without.
#[derive(Clone, Copy)]
pub enum Effect {
    NoRoom,
    Nothing,
    Puts {
        at: usize,
        disjunct: Disjunct,
        row: bool,
    },
}

const OPEN: u8 = 5;

const SEAL: u8 = 6;

impl Move {
    pub fn opens(self) -> bool {
        self.event.kind == OPEN
    }

    // Whether it has a row.
    pub fn has_row(self) -> bool {
        matches!(self.effect, Effect::Puts { row: true, .. })
    }

    // The same event where the book says nothing of it.
    pub fn passed_over(self) -> Move {
        still(self.held, self.event)
    }
}

// An event that leaves all but the event number.
fn still(held: Held, event: Event) -> Move {
    Move {
        held,
        event,
        effect: Effect::Nothing,
    }
}

// One that would need a seventh exclusion.
fn crowded(held: Held, event: Event) -> Move {
    Move {
        held,
        event,
        effect: Effect::NoRoom,
    }
}

// One that meets the disjunct at a place and excludes its value there, so that `s` is free without xs; `seal` also has a row.
fn meeting(held: Held, event: Event, at: usize, xs: &[u32]) -> Move {
    let [a, _, _] = event.arguments;
    Move {
        held,
        event,
        effect: Effect::Puts {
            at,
            disjunct: states::partial(a, xs),
            row: event.kind == SEAL,
        },
    }
}

// `open`: nothing is excluded for that value of `d`; a partial match that had it ends, and the new one stands at a place.
fn opening(held: Held, a: u32, at: usize) -> Move {
    meeting(held, Event::one(OPEN, a), at, &[])
}

// open(1), open(2), fill(1,7), fill(1,9)
pub fn two(number: u32) -> Held {
    Held {
        number,
        first: Some(states::partial(1, &[7, 9])),
        second: Some(states::partial(2, &[])),
    }
}

// Sound, though no run reaches it: `d` is 1 in both.
fn twice(number: u32) -> Held {
    Held {
        number,
        first: Some(states::partial(1, &[])),
        second: Some(states::partial(1, &[7, 9])),
    }
}

// open(1), and fill(1, x) for x = v + 1, v + 3, up to v + 11
pub fn six(number: u32, v: u32) -> Held {
    let w = v % 4290000000;
    Held {
        number,
        first: Some(states::partial(1, &[w + 1, w + 3, w + 5, w + 7, w + 9, w + 11])),
        second: None,
    }
}

fn none(number: u32) -> Held {
    Held {
        number,
        first: None,
        second: None,
    }
}

// An event in the state `two`; kind is that of `fill` or `seal`.
fn in_two(h: Held, which: u64, kind: u8, v: u32) -> Move {
    let w = v % 4290000000;
    match which {
        0 => meeting(h, Event::two(kind, 1, 8), 0, &[7, 8, 9]),
        1 => meeting(h, Event::two(kind, 1, 3), 0, &[3, 7, 9]),
        2 => meeting(h, Event::two(kind, 1, w + 10), 0, &[7, 9, w + 10]),
        3 => meeting(h, Event::two(kind, 2, v), 1, &[v]),
        4 => still(h, Event::two(kind, 1, 7)),
        5 => still(h, Event::two(kind, w + 3, 8)),
        6 => opening(h, w + 3, 2),
        7 => opening(h, 1, 0),
        8 => opening(h, 2, 1),
        9 => still(h, Event::two(9, 1, 8)),
        _ => still(h, Event::one(kind, 1)),
    }
}

// One in the state `twice`.
fn in_twice(h: Held, which: u64, kind: u8, v: u32) -> Move {
    let w = v % 4290000000;
    match which {
        0 => meeting(h, Event::two(kind, 1, 7), 0, &[7]),
        1 => opening(h, w + 2, 2),
        _ => still(h, Event::two(kind, w + 2, 7)),
    }
}

// One in the state `six`.
fn in_six(h: Held, which: u64, kind: u8, v: u32) -> Move {
    let w = v % 4290000000;
    let even = (which % 7) as u32 * 2;
    match which {
        0..=6 => crowded(h, Event::two(kind, 1, w + even)),
        7 => still(h, Event::two(kind, 1, w + 1)),
        8 => still(h, Event::two(kind, 1, w + 11)),
        9 => still(h, Event::two(kind, w + 2, w)),
        10 => opening(h, 1, 0),
        _ => opening(h, w + 2, 1),
    }
}

// One in the fresh state.
fn in_none(h: Held, which: u64, kind: u8, v: u32) -> Move {
    match which {
        0 => still(h, Event::two(kind, v, v)),
        _ => opening(h, v, 0),
    }
}

// The event number: as the state was reached, or any up to the last.
fn number(seed: u64, reached: u32) -> u32 {
    match draws::below(seed, 10, 8) {
        0 => MOST_EVENTS,
        1 => MOST_EVENTS - 1,
        2 => amounts::short(draws::below(seed, 11, 1000000)),
        _ => reached,
    }
}

pub fn drawn(seed: u64) -> Move {
    let v = amounts::short(amounts::amount(seed, 20));
    let kind = if draws::below(seed, 22, 2) == 0 {
        1
    } else {
        SEAL
    };
    let which = |n| draws::below(seed, 24, n);
    match draws::below(seed, 23, 8) {
        0 => in_none(none(number(seed, 0)), which(3), kind, v),
        1 => in_six(six(number(seed, 7), v), which(12), kind, v),
        2 => in_twice(twice(number(seed, 4)), which(3), kind, v),
        _ => in_two(two(number(seed, 4)), which(11), kind, v),
    }
}
