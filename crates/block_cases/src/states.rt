// The words of a state that holds some disjuncts, and damage to them.
use crate::layout;
use crate::layout::{BOOK, COUNT, GROUP_WORDS, HELD, NUMBER, STATE, VALUE, VARIABLE_WORDS};
use corrupted::amounts;
use corrupted::sizes::MOST_EVENTS;
use oracle::entries::{Entry, Excluded, Held, Second};

// How the words of a state are damaged, so that they are out of what document 01 calls sound: another layout, too many disjuncts, an event number above
// the last; of one disjunct, position 0 or one beyond the book's three, a code above that of a value, exclusions that do not ascend; of two neighbours,
// a list of exclusions before one that begins it, a value before a free variable, exchanged, equal.
#[derive(Clone, Copy, PartialEq, Eq)]
pub enum Damage {
    LayoutZero,
    LayoutOfBook,
    LayoutNext,
    LayoutOther,
    OneTooMany,
    CountLargest,
    CountBeyond,
    NumberBeyond,
    PositionZero,
    PositionBeyond,
    FirstCodeBeyond,
    SecondCodeBeyond,
    Descending,
    LongBeforeShort,
    ValueBeforeFree,
    Exchanged,
    Equal,
}

impl Damage {
    pub const ALL: [Damage; 17] = [
        Damage::LayoutZero,
        Damage::LayoutOfBook,
        Damage::LayoutNext,
        Damage::LayoutOther,
        Damage::OneTooMany,
        Damage::CountLargest,
        Damage::CountBeyond,
        Damage::NumberBeyond,
        Damage::PositionZero,
        Damage::PositionBeyond,
        Damage::FirstCodeBeyond,
        Damage::SecondCodeBeyond,
        Damage::Descending,
        Damage::LongBeforeShort,
        Damage::ValueBeforeFree,
        Damage::Exchanged,
        Damage::Equal,
    ];

    // How many disjuncts it needs.
    pub fn needed(self) -> usize {
        match self {
            Damage::PositionZero
            | Damage::PositionBeyond
            | Damage::FirstCodeBeyond
            | Damage::SecondCodeBeyond
            | Damage::Descending => 1,
            Damage::LongBeforeShort | Damage::ValueBeforeFree | Damage::Exchanged | Damage::Equal =>
                2,
            _ => 0,
        }
    }
}

// The code of a free variable, and the values that it excludes.
fn put_free(words: &mut [u32], at: usize, excluded: &[u32]) {
    layout::put(words, at, &[amounts::short(excluded.len() as u64)]);
    layout::put(words, at % 4096 + 1, excluded);
}

// The words of a disjunct that are judged: not those behind a value or behind the exclusions, nor variables that the book does not have.
fn put_entry(words: &mut [u32], i: usize, e: Entry) {
    let at = layout::group(i);
    layout::put(words, HELD + i % 128, &[e.position]);
    layout::put(words, at, &[VALUE, e.d]);
    match e.s {
        Second::Value(x) => layout::put(words, at + VARIABLE_WORDS, &[VALUE, x]),
        Second::Free(excluded) => put_free(words, at + VARIABLE_WORDS, excluded.values()),
    }
}

// The words that are judged, over whatever else there is.
pub fn put_state(words: &mut [u32], number: u32, h: &Held) {
    let held = h.entries();
    layout::put(
        words,
        0,
        &[STATE, number, amounts::short(held.len() as u64)],
    );
    for (i, e) in held.iter().enumerate() {
        put_entry(words, i, *e);
    }
}

// The state after an accepted event, over the words before it: "code 7, the value and five zeros; else the count of the exclusions, the exclusions,
// and zeros", and zeros for places no longer held and for variables that the book does not have; the places behind those stay as they came.
pub fn put_next(words: &mut [u32], number: u32, old: &Held, h: &Held) {
    let n = old.entries().len().max(h.entries().len()) % 129;
    layout::clear(words, HELD, n);
    layout::clear(words, layout::group(0), n * GROUP_WORDS);
    put_state(words, number, h);
}

// Another layout, too many disjuncts, or an event number above the last.
fn misstated(words: &mut [u32], damage: Damage, x: u64) {
    match damage {
        Damage::LayoutZero => layout::put(words, 0, &[0]),
        Damage::LayoutOfBook => layout::put(words, 0, &[BOOK]),
        Damage::LayoutNext => layout::put(words, 0, &[STATE + 1]),
        Damage::LayoutOther => layout::put(words, 0, &[layout::other(amounts::short(x), STATE)]),
        Damage::OneTooMany => layout::put(words, COUNT, &[129]),
        Damage::CountLargest => layout::put(words, COUNT, &[u32::MAX]),
        Damage::CountBeyond => layout::put(words, COUNT, &[amounts::above_short(129, x)]),
        _ => layout::put(words, NUMBER, &[amounts::above_short(MOST_EVENTS + 1, x)]),
    }
}

// Two to six exclusions of a variable, one of them equal to the one before it or less.
fn put_descending(words: &mut [u32], at: usize, y: u64) {
    let more = (y % 5) as usize;
    let i = ((y / 5 % 5) as usize).min(more) + 1;
    let mut x = [10, 20, 30, 40, 50, 60];
    x[i] = i as u32 * 10 - (y / 32 % 2) as u32;
    put_free(words, at, &x[..more + 2]);
}

// One disjunct damaged, the i-th.
fn misheld(words: &mut [u32], damage: Damage, i: usize, x: u64, y: u64) {
    let at = layout::group(i);
    let second = at + VARIABLE_WORDS;
    match damage {
        Damage::PositionZero => layout::put(words, HELD + i % 128, &[0]),
        Damage::PositionBeyond => {
            layout::put(words, HELD + i % 128, &[amounts::above_short(4, x)])
        }
        Damage::FirstCodeBeyond => layout::put(words, at, &[amounts::above_short(8, x)]),
        Damage::SecondCodeBeyond => layout::put(words, second, &[amounts::above_short(8, x)]),
        _ => put_descending(words, if y % 2 == 0 { at } else { second }, y / 2),
    }
}

// What stands in place of two neighbours.
fn disordered(damage: Damage, e: Entry, f: Entry) -> [Entry; 2] {
    let with = |s| Entry { s, ..e };
    let short = with(Second::Free(Excluded::of(&[7])));
    let long = with(Second::Free(Excluded::of(&[7, 9])));
    match damage {
        Damage::LongBeforeShort => [long, short],
        Damage::ValueBeforeFree => [with(Second::Value(0)), long],
        Damage::Exchanged => [f, e],
        _ => [e, e],
    }
}

// The words with the damage, if there is any; x says how much, y where.
pub fn put_damaged(words: &mut [u32], h: &Held, damage: Option<Damage>, x: u64, y: u64) {
    let Some(damage) = damage else {
        return;
    };
    let held = h.entries();
    let needed = damage.needed();
    if held.len() < needed {
        return;
    }
    let i = draws::below(y, 1, (held.len() + 1 - needed) as u64) as usize;
    match needed {
        0 => misstated(words, damage, x),
        1 => misheld(words, damage, i, x, y),
        _ => {
            for (k, e) in disordered(damage, held[i], held[i + 1]).iter().enumerate() {
                put_entry(words, i + k, *e);
            }
        }
    }
}
