// Held disjuncts drawn at random, for the states of `block_cases`: few, many, or all 128, most of them at positions 1 and 2, some at position 3,
// where no run leaves any.
use crate::entries::{EXCLUSIONS, Entry, Excluded, Held, PLACES, Second};
use corrupted::amounts;

// The least value of `d`, and of `s`: so far below the largest that all values of a case fit.
pub fn least(seed: u64, k: u64) -> u32 {
    amounts::short(amounts::amount(seed, k) % 4290000000)
}

pub const LEAST_D: u64 = 20;

pub const LEAST_S: u64 = 22;

// A value and a little more.
pub fn raised(x: u32, more: u64) -> u32 {
    x % 4294000000 + (more % 1000) as u32
}

// How many disjuncts are held.
fn count(seed: u64) -> usize {
    let any = draws::below(seed, 11, 129) as usize;
    match draws::below(seed, 10, 16) {
        0 => 0,
        1..=2 => PLACES,
        3 => PLACES - any % 4,
        4 => any,
        _ => 1 + any % 6,
    }
}

// How many of n stand before position 2, and before position 3: all, three times in four.
fn before_second(seed: u64, n: usize) -> usize {
    draws::below(seed, 12, n as u64 % 1000 + 1) as usize
}

fn before_third(seed: u64, n: usize) -> usize {
    if draws::below(seed, 13, 4) != 0 {
        return n;
    }
    draws::below(seed, 14, n as u64 % 1000 + 1) as usize
}

fn position(seed: u64, n: usize, i: usize) -> u32 {
    if before_third(seed, n) <= i {
        3
    } else if before_second(seed, n) <= i {
        2
    } else {
        1
    }
}

// A free `s` without up to six values, with gaps.
fn free(seed: u64, k: u64) -> Second {
    let n = draws::below(seed, k, 9) as usize;
    let mut numbers = [0; EXCLUSIONS];
    for (i, x) in numbers.iter_mut().enumerate() {
        let gap = draws::below(seed, k % 60000 + 1 + i as u64, 2);
        *x = raised(least(seed, LEAST_S), i as u64 * 2 + gap);
    }
    Second::Free(Excluded::of(&numbers[..n.min(EXCLUSIONS)]))
}

// Whether `s` has a value: seldom at position 1, mostly at 2, always at 3.
fn has_value(seed: u64, k: u64, position: u32) -> bool {
    let x = draws::below(seed, k, 8);
    match position {
        1 => x == 0,
        2 => x != 0,
        _ => true,
    }
}

// The value of an `s` behind an entry with the same `d`.
fn behind(e: Entry, least: u32, more: u64) -> u32 {
    match e.s {
        Second::Value(x) => raised(x, more % 3 + 1),
        Second::Free(_) => raised(least, more),
    }
}

// Whether an entry has the `d` of the one before it: one time in three, or in a quarter of all cases nearly always.
fn is_same(seed: u64, k: u64) -> bool {
    let x = draws::below(seed, k, 30);
    if draws::below(seed, 15, 4) == 0 {
        x != 0
    } else {
        x < 10
    }
}

// The first entry of a position, or one behind another: with the same `d`, or with a larger one.
fn next(seed: u64, i: usize, e: Entry, position: u32) -> Entry {
    let k = 1000 + i as u64 % 200 * 16;
    let s = least(seed, LEAST_S);
    let more = draws::below(seed, k, 3);
    let first = e.position != position;
    if !first && is_same(seed, k + 1) {
        return Entry {
            position,
            d: e.d,
            s: Second::Value(behind(e, s, more)),
        };
    }
    let d = if first {
        least(seed, LEAST_D)
    } else {
        raised(e.d, 1 + draws::below(seed, k + 2, 2))
    };
    let s = if has_value(seed, k + 3, position) {
        Second::Value(raised(s, more))
    } else {
        free(seed, k + 4)
    };
    Entry { position, d, s }
}

pub fn held(seed: u64) -> Held {
    let n = count(seed);
    let mut last = Entry::default();
    let mut h = Held::none();
    for i in 0..n {
        last = next(seed, i, last, position(seed, n, i));
        h.push(last);
    }
    h
}
