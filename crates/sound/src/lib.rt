// Whether a book and a state, filled in any way, are sound: answer 9 otherwise. For the event call.
#![tactic(auto)]

ghost use Rattle.std.specs.Prelude.{◌≡◌, ◌&&◌, ◌≤◌, leb, ltb, take};
ghost use Rattle.laws.specs.Lists.{all};
ghost use Rattle.pattern.specs.Positions.{occurrence_limit};
ghost use Rattle.meaning.specs.Book.{sound_parameter, sound_mask};
ghost use Rattle.meaning.specs.Limits.{symbol_limit, parameter_limit};
ghost use Rattle.table.specs.Tables.{names_limit, view_parameter};
ghost use Rattle.sound.specs.Soundness.{name_placed, book_sound};
ghost use Rattle.sound.specs.Tests.{symbol_sound, pattern_sound};

use book::{Book, TEXT_LIMIT};
use disjunct::Disjunct;
use piece::POSITIONS;
use table::{NAMES, Name, PARAMETERS, Parameter, SYMBOLS, Symbol};

// "KIND is 1 to 255"
const KIND_LIMIT: u32 = 255;

// An argument place: ignored, one of the variables, or fixed: then any number is in range.
fn sound_parameter(p: Parameter, variables: usize) -> bool
    ensures { result ≡ (leb p.tag 2 && sound_parameter variables (view_parameter p)) }
{
    if p.tag == 1 {
        (p.number as usize) < variables
    } else {
        p.tag <= 2
    }
}

// A symbol with every number in its declared range.
fn sound_symbol(y: Symbol, variables: usize) -> bool
    ensures { result ≡ symbol_sound variables y }
{
    y.count <= PARAMETERS
        && (1..=KIND_LIMIT).contains(&y.kind)
        && y.parameters[..y.count]
            .iter()
            .all(|p| sound_parameter(*p, variables))
}

// A name that ends within a text. No sum: both numbers may be of any size.
fn sound_name(x: Name) -> bool
    ensures { result ≡ name_placed x }
{
    x.start <= TEXT_LIMIT && x.size <= TEXT_LIMIT - x.start
}

// A set of positions 1 to n.
fn sound_mask(m: u32, n: usize) -> bool
    requires { n ≤ occurrence_limit }
    ensures { result ≡ sound_mask n m }
{
    (m as u64) < (1u64 << (n + 1)) && m % 2 == 0
}

// The pattern's share of a book.
fn sound_pattern(b: Book) -> bool
    ensures { result ≡ pattern_sound b }
{
    let n = b.positions;
    !b.empty
        && (1..=POSITIONS).contains(&n)
        && sound_mask(b.begins, n)
        && sound_mask(b.ends, n)
        && b.occurrences[..n].iter().all(|a| (*a as usize) < b.symbols)
        && b.follows[..n].iter().all(|m| sound_mask(*m, n))
}

pub fn sound_book(b: Book) -> bool
    ensures { result ≡ book_sound b }
{
    b.variables <= Disjunct::VARIABLES
        && (1..=SYMBOLS).contains(&b.symbols)
        && b.table[..b.symbols]
            .iter()
            .all(|y| sound_symbol(*y, b.variables))
        && b.names[..b.variables + b.symbols]
            .iter()
            .all(|x| sound_name(*x))
        && sound_pattern(b)
}
