// The blocks of words as they are described: where each part of a book and of a state begins, and how long it is. For `books` and `states`.
ghost use Rattle.std.specs.Prelude.{◌≤◌};

use corrupted::amounts;

// A book: the layout, the counts of variables, symbols and positions, the sets of beginning and of ending positions, the flag of the empty word, 20
// names of two words, 16 symbols of ten, and for each of 31 positions its symbol, then the set of those that follow it.
pub const BOOK: u32 = 1001;

pub const VARIABLES: usize = 1;

pub const SYMBOLS: usize = 2;

pub const POSITIONS: usize = 3;

pub const BEGINS: usize = 4;

pub const ENDS: usize = 5;

pub const EMPTY: usize = 6;

pub const NAMES: usize = 7;

pub const TABLE: usize = 47;

pub const SYMBOL_WORDS: usize = 10;

pub const OCCURRENCES: usize = 207;

pub const FOLLOWS: usize = 238;

pub const BOOK_WORDS: usize = 269;

// A state: the layout, the event number, the count of disjuncts, 128 positions, and 128 groups of four variables, seven words to each.
pub const STATE: u32 = 2001;

pub const NUMBER: usize = 1;

pub const COUNT: usize = 2;

pub const HELD: usize = 3;

pub const GROUPS: usize = 131;

pub const VARIABLE_WORDS: usize = 7;

pub const GROUP_WORDS: usize = 28;

pub const STATE_WORDS: usize = 3715;

// The code of a variable with a value; any other is the count of those that a free one excludes.
pub const VALUE: u32 = 7;

// Where the words of a symbol and of a disjunct begin.
pub fn symbol(i: usize) -> usize
    ensures { result ≤ 4096 }
{
    TABLE + i % 16 * SYMBOL_WORDS
}

pub fn group(i: usize) -> usize
    ensures { result ≤ 4096 }
{
    GROUPS + i % 128 * GROUP_WORDS
}

// A number that is not the layout's.
pub fn other(x: u32, layout: u32) -> u32 {
    if x == layout { 7 } else { x }
}

// All words filled: with zeros, or with numbers that differ from word to word.
pub fn fill(words: &mut [u32], x: u64) {
    for (i, word) in words.iter_mut().enumerate() {
        *word = match x {
            0 => 0,
            _ => amounts::short(x % 4294967296 + i as u64 % 4096 * 65537),
        };
    }
}

// Some words written from a place on, as far as there is room.
pub fn put(words: &mut [u32], from: usize, xs: &[u32]) {
    if let Some(room) = words.get_mut(from..) {
        for (word, x) in room.iter_mut().zip(xs) {
            *word = *x;
        }
    }
}

// So many words cleared from a place on.
pub fn clear(words: &mut [u32], from: usize, count: usize) {
    for word in words.iter_mut().skip(from).take(count) {
        *word = 0;
    }
}
