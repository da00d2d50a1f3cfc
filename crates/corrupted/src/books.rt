// Damage to the book of `main`: three symbols (the first with one parameter, the others with two), two variables, two positions.
ghost use Rattle.std.specs.Prelude.{◌≤◌};

use crate::amounts;
use crate::sizes::TEXT_BYTES;
use book::Book;
use piece::POSITIONS;
use table::{Name, PARAMETERS, Parameter, SYMBOLS, Symbol, VARIABLES};

// How a book is damaged: a count out of its range; a set with position 0 or one beyond the two; a symbol that is not declared; the empty
// word; a symbol out of its range; a word that ends at position 1, where `s` is free; a name beyond the longest text; and a fixed number
// more among each symbol's parameters. `Ended` and `Fixed` leave the book sound.
#[derive(Clone, Copy, PartialEq, Eq)]
pub enum Damage {
    ManyVariables,
    NoSymbols,
    ManySymbols,
    NoPositions,
    ManyPositions,
    PositionZero,
    PositionBeyond,
    SymbolBeyond,
    EmptyWord,
    KindZero,
    KindBeyond,
    ManyParameters,
    TagBeyond,
    VariableBeyond,
    Ended,
    Misnamed,
    Fixed,
}

impl Damage {
    pub const ALL: [Damage; 17] = [
        Damage::ManyVariables,
        Damage::NoSymbols,
        Damage::ManySymbols,
        Damage::NoPositions,
        Damage::ManyPositions,
        Damage::PositionZero,
        Damage::PositionBeyond,
        Damage::SymbolBeyond,
        Damage::EmptyWord,
        Damage::KindZero,
        Damage::KindBeyond,
        Damage::ManyParameters,
        Damage::TagBeyond,
        Damage::VariableBeyond,
        Damage::Ended,
        Damage::Misnamed,
        Damage::Fixed,
    ];

    pub fn is_unsound(self) -> bool {
        self != Damage::Ended && self != Damage::Fixed
    }
}

// The book with the damage, if there is any; x says how much, y where.
pub fn damaged(b: Book, damage: Option<Damage>, x: u64, y: u64) -> Book {
    let Some(damage) = damage else {
        return b;
    };
    let i = (y % 3) as usize;
    let j = if b.table[i].count == 2 { y / 3 % 2 } else { 0 } as usize;
    let mut r = b;
    match damage {
        Damage::ManyVariables => r.variables = amounts::above(VARIABLES + 1, x),
        Damage::NoSymbols => r.symbols = 0,
        Damage::ManySymbols => r.symbols = amounts::above(SYMBOLS + 1, x),
        Damage::NoPositions => return without_positions(b, y),
        Damage::ManyPositions => r.positions = amounts::above(POSITIONS + 1, x),
        Damage::PositionZero => *set(&mut r, y) |= 1,
        Damage::PositionBeyond => *set(&mut r, y) |= 1 << (3 + y / 4 % 29),
        Damage::SymbolBeyond => r.occurrences[(y % 2) as usize] = amounts::above_short(3, x),
        Damage::EmptyWord => r.empty = true,
        Damage::KindZero => r.table[i].kind = 0,
        Damage::KindBeyond => r.table[i].kind = amounts::above_short(256, x),
        Damage::ManyParameters => r.table[i].count = amounts::above(PARAMETERS + 1, x),
        Damage::TagBeyond => r.table[i].parameters[j].tag = amounts::above_short(3, x),
        Damage::VariableBeyond => {
            r.table[i].parameters[j] = Parameter {
                tag: 1,
                number: amounts::above_short(2, x),
            }
        }
        Damage::Ended => r.ends = 2,
        Damage::Misnamed => {
            let k = (y % 5) as usize;
            r.names[k] = beyond(b.names[k], x, y / 5);
        }
        Damage::Fixed => {
            for s in &mut r.table[..3] {
                *s = widened(*s, amounts::short(x), y);
            }
        }
    }
    r
}

// No position, and no word begins or ends either, one time in two.
fn without_positions(b: Book, y: u64) -> Book {
    if y % 2 == 0 {
        return Book {
            positions: 0,
            begins: 0,
            ends: 0,
            ..b
        };
    }
    Book { positions: 0, ..b }
}

// One of the sets of positions.
fn set(b: &mut Book, y: u64) -> &mut u32 {
    match y % 4 {
        0 => &mut b.begins,
        1 => &mut b.ends,
        2 => &mut b.follows[0],
        _ => &mut b.follows[1],
    }
}

// A name that reaches beyond the longest text: by its start, its size, their sum, or a sum beyond 64 bits.
fn beyond(n: Name, x: u64, y: u64) -> Name {
    let far = amounts::above(TEXT_BYTES + 1, x);
    match y % 4 {
        0 => Name { start: far, ..n },
        1 => Name { size: far, ..n },
        2 => Name {
            start: TEXT_BYTES,
            size: amounts::above(1, x),
        },
        _ => Name {
            start: far,
            size: far,
        },
    }
}

// Where among so many others a fixed number, or the argument for it, stands.
pub fn place(y: u64, others: u64) -> u64
    ensures { result ≤ 2 }
{
    y % (others % 3 + 1)
}

// A symbol with a fixed number as a parameter more, before, among or behind its one or two.
fn widened(s: Symbol, number: u32, y: u64) -> Symbol {
    let at = place(y, s.count as u64) as usize;
    let mut r = s;
    r.count = s.count % 3 + 1;
    r.parameters.copy_within(at..2, at + 1);
    r.parameters[at] = Parameter { tag: 2, number };
    r
}

// What no count reaches filled with x: names, symbols, their parameters, positions. The last of the five declared names just inside the
// longest text.
pub fn spare(b: Book, x: u64) -> Book {
    let short = amounts::short(x);
    let p = Parameter {
        tag: short,
        number: short,
    };
    let mut r = b;
    r.names[4] = Name {
        start: TEXT_BYTES,
        size: 0,
    };
    r.names[5..].fill(Name {
        start: x as usize,
        size: x as usize,
    });
    r.occurrences[2..].fill(short);
    r.follows[2..].fill(short);
    r.table[3..].fill(Symbol {
        kind: short,
        count: x as usize,
        parameters: [p; PARAMETERS],
    });
    for s in &mut r.table[..3] {
        let n = if s.count == 1 { 1 } else { 2 };
        s.parameters[n..].fill(p);
    }
    r
}
