// What the second reader has noted so far of a text, which it reads byte by byte. For `header` and `scanner`; what it notes of names is
// in `declared`, of the pattern's words in `levels`.
#![tactic(auto)]

ghost use Rattle.std.specs.Prelude.{◌≡◌, [], ◌<◌, Some, None, IfSome};
ghost use Rattle.noted.specs.declared.Phase.TheVariants as Phases;

pub mod declared;
pub mod levels;
#[cfg(test)]
mod tests;

use arrayvec::ArrayVec;
use declared::{Symbol, Word};
use levels::{LevelsOf, OPEN_LIMIT};

// "0 to 4 variable names", "1 to 16 lines"; and one symbol more, since a seventeenth line is read to its end behind its fault.
pub const VARIABLE_PLACES: usize = 4;

pub const SYMBOL_PLACES: usize = 17;

// Where the scan is: on the lines before the pattern, in the pattern, behind its LF, or done.
#[derive(Clone, Copy, PartialEq, Eq)]
pub enum Phase {
    Lines,
    Pattern,
    Behind,
    Over,
}

// What the byte before belongs to, and where that began.
#[derive(Clone, Copy)]
pub enum Run {
    Nothing,
    Word(usize),
    Gap(usize),
}

// A fault; in their order the least is at "the earliest place; at one place the smaller number".
#[derive(Clone, Copy, PartialEq, Eq, PartialOrd, Ord)]
pub struct Fault {
    pub place: usize,
    pub number: usize,
}

// With places for so many variables, symbols and open parentheses. A name that has no place is left out, and what is read of such a symbol
// counts for the last one that has a place.
#[derive(Drop)]
pub struct NotesOf<'a, const V: usize, const S: usize, const D: usize> {
    pub text: &'a [u8],
    pub phase: Phase,
    // The least fault so far.
    pub least: Option<Fault>,
    // How many lines have ended, and how many words of this one have begun.
    pub line: usize,
    pub words: usize,
    pub run: Run,
    pub variables: ArrayVec<Word<'a>, V>,
    pub symbols: ArrayVec<Symbol<'a>, S>,
    // Of the pattern: the first token's place, the occurrences, and what its words have.
    pub first: Option<usize>,
    pub occurrences: usize,
    pub levels: LevelsOf<D>,
}

// With places for as many as a book may have.
pub type Notes<'a> = NotesOf<'a, VARIABLE_PLACES, SYMBOL_PLACES, OPEN_LIMIT>;

impl<'a, const V: usize, const S: usize, const D: usize> NotesOf<'a, V, S, D> {
    // Before the first byte.
    pub fn new(text: &'a [u8]) -> NotesOf<'a, V, S, D>
        ensures text { result.text.now ≡ text.now }
        ensures phase { result.phase ≡ Phases.Lines }
        ensures least { result.least ≡ None }
        ensures line { result.line ≡ 0 }
        ensures words { result.words ≡ 0 }
        ensures variables { result.variables.items ≡ [] }
        ensures symbols { result.symbols.items ≡ [] }
    {
        NotesOf {
            text,
            phase: Phase::Lines,
            least: None,
            line: 0,
            words: 0,
            run: Run::Nothing,
            variables: ArrayVec::new(),
            symbols: ArrayVec::new(),
            first: None,
            occurrences: 0,
            levels: LevelsOf::new(),
        }
    }

    // A fault is noted where it is the least so far.
    pub fn fault(&mut self, number: usize, place: usize)
        ensures first { self.old.least ≡ None → self.new.least ≡ Some (record { place = place; number = number }) }
        ensures earlier { IfSome self.old.least (λ f. f.place < place → self.new.least ≡ Some f) }
        ensures later { IfSome self.old.least (λ f. place < f.place → self.new.least ≡ Some (record { place = place; number = number })) }
    {
        let fault = Fault { place, number };
        self.least = Some(self.least.map_or(fault, |least| least.min(fault)));
    }

    // The word that began at one place and ends before another.
    pub fn word(&self, from: usize, end: usize) -> Word<'a> {
        Word {
            start: from,
            bytes: self.text.get(from..end).unwrap_or(&[]),
        }
    }

    // Whether a variable or a symbol has this name.
    pub fn is_declared(&self, name: &[u8]) -> bool {
        self.variables.iter().any(|w| w.is(name)) || self.symbols.iter().any(|s| s.name.is(name))
    }

    // The name with a number, variables first, where it was declared; none of a refused text.
    pub fn name(&self, number: usize) -> Option<Word<'a>> {
        if self.least.is_some() {
            return None;
        }
        let before = self.variables.len();
        if number < before {
            return self.variables.get(number).copied();
        }
        self.symbols.get(number - before).map(|s| s.name)
    }
}
