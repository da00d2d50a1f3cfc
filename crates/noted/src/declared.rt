// The names that were declared, as parts of the text, with what was declared of them. For the second reader.
use arrayvec::ArrayVec;

// "1 to 12 bytes"
const NAME_BYTES: usize = 12;

// "ARGS are 0 to 4 words"
pub const ARGUMENTS: usize = 4;

// A word of the text, and where it stands.
#[derive(Clone, Copy, Default)]
pub struct Word<'a> {
    pub start: usize,
    pub bytes: &'a [u8],
}

// What a symbol's argument must be: anything, what a variable is, or a fixed number.
#[derive(Clone, Copy, PartialEq, Eq, Default)]
pub enum Argument {
    #[default]
    Ignored,
    Variable(usize),
    Fixed(u32),
}

// A symbol with places for so many arguments.
#[derive(Drop, Default)]
pub struct SymbolOf<'a, const A: usize> {
    pub name: Word<'a>,
    pub kind: u8,
    pub arguments: ArrayVec<Argument, A>,
}

// With places for as many as a book may give it.
pub type Symbol<'a> = SymbolOf<'a, ARGUMENTS>;

// A byte that may stand in a name behind the first.
pub fn is_inner(b: u8) -> bool {
    b.is_ascii_lowercase() || b.is_ascii_digit()
}

impl Word<'_> {
    pub fn is(&self, bytes: &[u8]) -> bool {
        self.bytes == bytes
    }

    // "A name is a to z, then a to z or 0 to 9"
    pub fn is_name(&self) -> bool {
        match self.bytes {
            [first, rest @ ..] => {
                first.is_ascii_lowercase() && rest.iter().all(|b| is_inner(*b))
            }
            [] => false,
        }
    }

    pub fn is_long(&self) -> bool {
        NAME_BYTES < self.bytes.len()
    }
}

impl<const A: usize> SymbolOf<'_, A> {
    // The variables that it binds, a bit to each.
    pub fn binds(&self) -> u8 {
        let mut binds = 0;
        for argument in self.arguments.as_slice() {
            if let Argument::Variable(v) = argument {
                binds |= 1 << (v % 8);
            }
        }
        binds
    }
}
