// The states that are lent, from what they hold at position 1; and damage to one that holds two disjuncts.
use crate::amounts;
use crate::sizes::{EXCLUSIONS, MOST_EVENTS};
use disjunct::Disjunct;
use slot::Slot;
use state::{CAPACITY, State};
use table::VARIABLES;

// The event number, and up to two disjuncts, the second only beside a first.
#[derive(Clone, Copy)]
pub struct Held {
    pub number: u32,
    pub first: Option<Disjunct>,
    pub second: Option<Disjunct>,
}

// A variable with a value; one that is free without some values; and one of which nothing is said.
fn holding(value: u32) -> Slot {
    Slot {
        bound: true,
        value,
        count: 0,
        excluded: [0; EXCLUSIONS],
    }
}

fn without(xs: &[u32]) -> Slot {
    let mut excluded = [0; EXCLUSIONS];
    for (place, x) in excluded.iter_mut().zip(xs) {
        *place = *x;
    }
    Slot {
        bound: false,
        value: 0,
        count: xs.len(),
        excluded,
    }
}

fn open() -> Slot {
    without(&[])
}

// `d` has the value, `s` is free without xs, the further variables are free.
pub fn partial(value: u32, xs: &[u32]) -> Disjunct {
    Disjunct {
        vars: [holding(value), without(xs), open(), open()],
    }
}

// The disjunct that says nothing.
pub fn free() -> Disjunct {
    Disjunct {
        vars: [open(); VARIABLES],
    }
}

// All that a place can have, filled with x.
fn filled(x: u64) -> Disjunct {
    let short = amounts::short(x);
    let s = Slot {
        bound: x % 2 == 1,
        value: short,
        count: x as usize,
        excluded: [short; EXCLUSIONS],
    };
    Disjunct {
        vars: [s; VARIABLES],
    }
}

// What is held stands first; the places behind it are as told.
fn pooled(h: Held, position: u32, other: Disjunct) -> State {
    let mut r = State {
        number: h.number,
        count: 0,
        positions: [position; CAPACITY],
        pool: [other; CAPACITY],
    };
    for (i, held) in [h.first, h.second].iter().enumerate() {
        if let Some(d) = held {
            r.positions[i] = 1;
            r.pool[i] = *d;
            r.count = i + 1;
        }
    }
    r
}

// The state as the watch leaves it, all that is not counted zero.
pub fn clean(h: Held) -> State {
    pooled(h, 0, free())
}

// The same with all that no count reaches filled with x.
pub fn spare(h: Held, x: u64) -> State {
    let dirty = Held {
        first: h.first.map(|d| unread(d, x)),
        second: h.second.map(|d| unread(d, x / 2)),
        ..h
    };
    pooled(dirty, amounts::short(x), filled(x))
}

// The variables beyond the two, the exclusions beyond their count and the value of a free variable filled with x.
fn unread(d: Disjunct, x: u64) -> Disjunct {
    let [a, b, _, _] = d.vars;
    let [_, _, c, e] = filled(x).vars;
    let short = amounts::short(x);
    Disjunct {
        vars: [uncounted(a, short), uncounted(b, short), c, e],
    }
}

fn uncounted(s: Slot, x: u32) -> Slot {
    let mut r = s;
    if !s.bound {
        r.value = x;
    }
    for y in r.excluded.iter_mut().skip(s.count) {
        *y = x;
    }
    r
}

// A disjunct more, or another one, at a place; one event later.
pub fn changed(s: State, at: usize, d: Disjunct) -> State {
    let mut r = s;
    if at < CAPACITY {
        r.positions[at] = 1;
        r.pool[at] = d;
        r.count = s.count.max(at + 1);
    }
    r
}

// How a state that holds two disjuncts is damaged: a number or a count out of its range; position 0, or one beyond the two; the disjuncts
// exchanged, or the same in all that is judged; too many exclusions, exclusions that descend or are equal, or exclusions at a bound
// variable. None of it is what document 01 calls sound.
#[derive(Clone, Copy)]
pub enum Damage {
    NumberBeyond,
    ManyDisjuncts,
    PositionZero,
    PositionBeyond,
    Exchanged,
    Twins,
    ManyExclusions,
    Descending,
    Equal,
    BoundExclusions,
}

impl Damage {
    pub const ALL: [Damage; 10] = [
        Damage::NumberBeyond,
        Damage::ManyDisjuncts,
        Damage::PositionZero,
        Damage::PositionBeyond,
        Damage::Exchanged,
        Damage::Twins,
        Damage::ManyExclusions,
        Damage::Descending,
        Damage::Equal,
        Damage::BoundExclusions,
    ];
}

// The state with the damage, if there is any; x says how much, y where.
pub fn damaged(s: State, damage: Option<Damage>, x: u64, y: u64) -> State {
    let Some(damage) = damage else {
        return s;
    };
    let i = (y % 2) as usize;
    let mut r = s;
    match damage {
        Damage::NumberBeyond => r.number = amounts::above_short(MOST_EVENTS + 1, x),
        Damage::ManyDisjuncts => r.count = amounts::above(CAPACITY + 1, x),
        Damage::PositionZero => r.positions[i] = 0,
        Damage::PositionBeyond => r.positions[i] = amounts::above_short(3, x),
        Damage::Exchanged => r.pool.swap(0, 1),
        Damage::Twins => r.pool[1] = twin(s.pool[0], x),
        Damage::ManyExclusions => {
            r.pool[i].vars[1] = Slot {
                count: amounts::above(EXCLUSIONS + 1, x),
                ..without(&[1, 2, 3, 4, 5, 6])
            }
        }
        Damage::Descending => r.pool[i].vars[1] = without(&[9, 7]),
        Damage::Equal => r.pool[i].vars[1] = without(&[7, 7]),
        Damage::BoundExclusions => {
            r.pool[i].vars[0].bound = true;
            r.pool[i].vars[0].count = amounts::above(1, x);
        }
    }
    r
}

// The same disjunct in all that is judged.
fn twin(d: Disjunct, x: u64) -> Disjunct {
    let mut r = d;
    r.vars[3] = Slot {
        count: x as usize,
        ..holding(amounts::short(x))
    };
    r
}
