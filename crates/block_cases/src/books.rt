// The words of the book `vars d s`, open 5 d, fill 1 d s, close 6 d, reset 8 _, `match open fill close`, and damage to them.
ghost use Rattle.std.specs.Prelude.{◌≤◌};

use crate::layout;
use crate::layout::{
    BEGINS, BOOK, EMPTY, ENDS, FOLLOWS, NAMES, OCCURRENCES, POSITIONS, STATE, SYMBOLS, VARIABLES,
};
use corrupted::amounts;
use corrupted::sizes::TEXT_BYTES;

const LONGEST: u32 = TEXT_BYTES as u32;

// How the words of a book are damaged: another layout; a count out of its range, or less than the parameters, the pattern or the sets need; a set
// with position 0 or one beyond the three; a symbol that is not declared; the empty word; a symbol out of its range; a name beyond the longest text.
// The last three leave the book sound: a word ends at position 1, where `s` is free; each symbol has a fixed number as one parameter more; a name
// ends where the longest text does.
#[derive(Clone, Copy, PartialEq, Eq)]
pub enum Damage {
    LayoutZero,
    LayoutOfState,
    LayoutNext,
    LayoutOther,
    ManyVariables,
    FewVariables,
    NoSymbols,
    ManySymbols,
    FewSymbols,
    NoPositions,
    ManyPositions,
    FewPositions,
    PositionZero,
    PositionBeyond,
    SymbolBeyond,
    EmptyOne,
    EmptyTwo,
    EmptyBeyond,
    KindZero,
    KindBeyond,
    ManyParameters,
    TagBeyond,
    VariableBeyond,
    NameStartsBeyond,
    NameEndsJustBeyond,
    NameTooLong,
    Ended,
    Fixed,
    NameToTheEnd,
}

impl Damage {
    pub const ALL: [Damage; 29] = [
        Damage::LayoutZero,
        Damage::LayoutOfState,
        Damage::LayoutNext,
        Damage::LayoutOther,
        Damage::ManyVariables,
        Damage::FewVariables,
        Damage::NoSymbols,
        Damage::ManySymbols,
        Damage::FewSymbols,
        Damage::NoPositions,
        Damage::ManyPositions,
        Damage::FewPositions,
        Damage::PositionZero,
        Damage::PositionBeyond,
        Damage::SymbolBeyond,
        Damage::EmptyOne,
        Damage::EmptyTwo,
        Damage::EmptyBeyond,
        Damage::KindZero,
        Damage::KindBeyond,
        Damage::ManyParameters,
        Damage::TagBeyond,
        Damage::VariableBeyond,
        Damage::NameStartsBeyond,
        Damage::NameEndsJustBeyond,
        Damage::NameTooLong,
        Damage::Ended,
        Damage::Fixed,
        Damage::NameToTheEnd,
    ];

    pub fn is_unsound(self) -> bool {
        !matches!(self, Damage::Ended | Damage::Fixed | Damage::NameToTheEnd)
    }
}

// The words that are judged, over whatever else there is: not those that no count reaches, and not the number of an ignored parameter. A symbol is its
// kind, the count of its parameters, and for each a tag (0 is ignored, 1 a variable, 2 a fixed number) and a number.
pub fn put_book(words: &mut [u32]) {
    layout::put(words, 0, &[BOOK, 2, 4, 3, 2, 8, 0]);
    layout::put(words, NAMES, &[5, 1, 7, 1, 13, 4, 26, 4, 41, 5, 55, 5]);
    layout::put(words, layout::symbol(0), &[5, 1, 1, 0]);
    layout::put(words, layout::symbol(1), &[1, 2, 1, 0, 1, 1]);
    layout::put(words, layout::symbol(2), &[6, 1, 1, 0]);
    layout::put(words, layout::symbol(3), &[8, 1, 0]);
    layout::put(words, OCCURRENCES, &[0, 1, 2]);
    layout::put(words, FOLLOWS, &[4, 8, 0]);
}

// Each symbol with a fixed number more.
fn put_fixed(words: &mut [u32], number: u32) {
    layout::put(words, layout::symbol(0), &[5, 2, 1, 0, 2, number]);
    layout::put(words, layout::symbol(1), &[1, 3, 1, 0, 1, 1, 2, number]);
    layout::put(words, layout::symbol(2), &[6, 2, 1, 0, 2, number]);
    layout::put(words, layout::symbol(3), &[8, 2, 0]);
    layout::put(words, layout::symbol(3) + 4, &[2, number]);
}

// Where one of the six names starts.
fn named(y: u64) -> usize
    ensures { result ≤ 4096 }
{
    NAMES + (y % 6) as usize * 2
}

// The word that is damaged.
fn place(damage: Damage, y: u64) -> usize {
    let declared = layout::symbol((y % 4) as usize);
    match damage {
        Damage::LayoutZero | Damage::LayoutOfState | Damage::LayoutNext | Damage::LayoutOther => 0,
        Damage::ManyVariables | Damage::FewVariables => VARIABLES,
        Damage::NoSymbols | Damage::ManySymbols | Damage::FewSymbols => SYMBOLS,
        Damage::NoPositions | Damage::ManyPositions | Damage::FewPositions => POSITIONS,
        Damage::PositionZero | Damage::PositionBeyond => {
            [BEGINS, ENDS, FOLLOWS, FOLLOWS + 1, FOLLOWS + 2][(y % 5) as usize]
        }
        Damage::SymbolBeyond => OCCURRENCES + (y % 3) as usize,
        Damage::EmptyOne | Damage::EmptyTwo | Damage::EmptyBeyond => EMPTY,
        Damage::KindZero | Damage::KindBeyond => declared,
        Damage::ManyParameters => declared + 1,
        Damage::TagBeyond => [49, 59, 61, 69, 79][(y % 5) as usize],
        Damage::VariableBeyond => [50, 60, 62, 70, 60][(y % 5) as usize],
        Damage::NameStartsBeyond => named(y),
        Damage::NameEndsJustBeyond | Damage::NameTooLong | Damage::NameToTheEnd => named(y) + 1,
        Damage::Ended | Damage::Fixed => ENDS,
    }
}

// What it holds then, from what stood there and where the name starts.
fn value(damage: Damage, x: u64, y: u64, old: u32, start: u32) -> u32 {
    match damage {
        Damage::LayoutZero | Damage::NoSymbols | Damage::NoPositions | Damage::KindZero => 0,
        Damage::LayoutOfState => STATE,
        Damage::LayoutNext => BOOK + 1,
        Damage::LayoutOther => layout::other(amounts::short(x), BOOK),
        Damage::FewVariables => (y % 2) as u32,
        Damage::FewSymbols | Damage::FewPositions => 1 + (y % 2) as u32,
        Damage::ManySymbols => amounts::above_short(17, x),
        Damage::ManyPositions => amounts::above_short(32, x),
        Damage::PositionZero => old | 1,
        Damage::PositionBeyond => old | 1 << (4 + y % 28),
        Damage::SymbolBeyond => amounts::above_short(4, x),
        Damage::EmptyOne => 1,
        Damage::EmptyTwo | Damage::Ended | Damage::Fixed => 2,
        Damage::EmptyBeyond | Damage::TagBeyond => amounts::above_short(3, x),
        Damage::KindBeyond => amounts::above_short(256, x),
        Damage::ManyVariables | Damage::ManyParameters => amounts::above_short(5, x),
        Damage::VariableBeyond => amounts::above_short(2, x),
        Damage::NameStartsBeyond | Damage::NameTooLong => amounts::above_short(LONGEST + 1, x),
        Damage::NameEndsJustBeyond => LONGEST + 1 - start % LONGEST,
        Damage::NameToTheEnd => LONGEST - start % LONGEST,
    }
}

// The words with the damage, if there is any; x says how much, y where.
pub fn put_damaged(words: &mut [u32], damage: Option<Damage>, x: u64, y: u64) {
    let Some(damage) = damage else {
        return;
    };
    if damage == Damage::Fixed {
        return put_fixed(words, amounts::short(x));
    }
    let at = place(damage, y);
    let old = words.get(at).copied().unwrap_or(0);
    let start = words.get(named(y)).copied().unwrap_or(0);
    layout::put(words, at, &[value(damage, x, y / 8, old, start)]);
}
