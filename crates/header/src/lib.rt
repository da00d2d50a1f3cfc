// The lines before the pattern, byte by byte: words divided by one space, each judged where it ends by the line's number and its own.
// For `scanner`, the second reader.
#![tactic(auto)]

mod numbers;
#[cfg(test)]
mod tests;

use arrayvec::ArrayVec;
use noted::declared::{Argument, Symbol, Word};
use noted::{NotesOf, Phase, Run};
use numbers::number;

// "0 to 4 variable names", "1 to 16 lines".
const VARIABLE_LIMIT: usize = 4;

const SYMBOL_LIMIT: usize = 16;

// The least number of words: `vars`, and `sym NAME KIND`.
const VARS_WORDS: usize = 1;

const SYM_WORDS: usize = 3;

// The byte at a place, or the end of the text.
pub fn step<const V: usize, const S: usize, const D: usize>(
    notes: &mut NotesOf<'_, V, S, D>,
    at: usize,
    byte: Option<u8>,
) {
    match byte {
        Some(b' ') => space(notes, at),
        Some(b'\n') | None => line_end(notes, at, byte),
        Some(_) => word_byte(notes, at),
    }
}

// "a space too many is 2 at that space": before the first word, or behind another.
fn space<const V: usize, const S: usize, const D: usize>(
    notes: &mut NotesOf<'_, V, S, D>,
    at: usize,
) {
    let Run::Word(from) = notes.run else {
        return notes.fault(2, at);
    };
    word_end(notes, from, at);
    notes.run = Run::Gap(at);
}

// The last space of a line is one too many; "a missing one is placed at the LF, a missing LF at the book's end".
fn line_end<const V: usize, const S: usize, const D: usize>(
    notes: &mut NotesOf<'_, V, S, D>,
    at: usize,
    byte: Option<u8>,
) {
    match notes.run {
        Run::Nothing => {}
        Run::Word(from) => word_end(notes, from, at),
        Run::Gap(from) => notes.fault(2, from),
    }
    if notes.words < least_words(notes) || byte.is_none() {
        notes.fault(2, at);
    }
    notes.line = notes.line.saturating_add(1);
    notes.words = 0;
    notes.run = Run::Nothing;
    if notes.least.is_some() {
        notes.phase = Phase::Over;
    }
}

fn least_words<const V: usize, const S: usize, const D: usize>(
    notes: &NotesOf<'_, V, S, D>,
) -> usize {
    if notes.line == 0 {
        VARS_WORDS
    } else {
        SYM_WORDS
    }
}

fn word_byte<const V: usize, const S: usize, const D: usize>(
    notes: &mut NotesOf<'_, V, S, D>,
    at: usize,
) {
    if !matches!(notes.run, Run::Word(_)) {
        notes.run = Run::Word(at);
        notes.words = notes.words.saturating_add(1);
    }
}

// The word that ends before this place, by its number on its line.
fn word_end<const V: usize, const S: usize, const D: usize>(
    notes: &mut NotesOf<'_, V, S, D>,
    from: usize,
    at: usize,
) {
    let word = notes.word(from, at);
    if notes.line == 0 {
        vars_word(notes, word)
    } else {
        sym_word(notes, word)
    }
}

// "`vars`, then 0 to 4 variable names"; "the first excess word, of any form, carries 3".
fn vars_word<'a, const V: usize, const S: usize, const D: usize>(
    notes: &mut NotesOf<'a, V, S, D>,
    word: Word<'a>,
) {
    if notes.words == 1 {
        if !word.is(b"vars") {
            notes.fault(2, word.start);
        }
    } else if notes.words <= 1 + VARIABLE_LIMIT {
        name(notes, word);
        let _ = notes.variables.try_push(word);
    } else {
        notes.fault(3, word.start);
    }
}

// "`sym NAME KIND ARGS`. … ARGS are 0 to 4 words"
fn sym_word<'a, const V: usize, const S: usize, const D: usize>(
    notes: &mut NotesOf<'a, V, S, D>,
    word: Word<'a>,
) {
    match notes.words {
        1 => first_word(notes, word),
        2 => symbol(notes, word),
        3 => kind(notes, word),
        4..=7 => argument(notes, word),
        _ => notes.fault(3, word.start),
    }
}

// `match` behind a `sym` line; else `sym`, "for a seventeenth `sym`, that word".
fn first_word<'a, const V: usize, const S: usize, const D: usize>(
    notes: &mut NotesOf<'a, V, S, D>,
    word: Word<'a>,
) {
    if word.is(b"match") {
        if notes.line == 1 {
            notes.fault(2, word.start);
        }
        notes.phase = Phase::Pattern;
        return;
    }
    if !word.is(b"sym") {
        notes.fault(2, word.start);
    }
    if SYMBOL_LIMIT < notes.line {
        notes.fault(3, word.start);
    }
}

fn symbol<'a, const V: usize, const S: usize, const D: usize>(
    notes: &mut NotesOf<'a, V, S, D>,
    word: Word<'a>,
) {
    name(notes, word);
    let _ = notes.symbols.try_push(Symbol {
        name: word,
        kind: 0,
        arguments: ArrayVec::new(),
    });
}

// Form and size of a name, and "name already declared".
fn name<'a, const V: usize, const S: usize, const D: usize>(
    notes: &mut NotesOf<'a, V, S, D>,
    word: Word<'a>,
) {
    formed(notes, word);
    if notes.is_declared(word.bytes) {
        notes.fault(4, word.start);
    }
}

fn formed<'a, const V: usize, const S: usize, const D: usize>(
    notes: &mut NotesOf<'a, V, S, D>,
    word: Word<'a>,
) {
    if !word.is_name() {
        notes.fault(2, word.start);
    }
    if word.is_long() {
        notes.fault(3, word.start);
    }
}

// "KIND is 1 to 255"
fn kind<'a, const V: usize, const S: usize, const D: usize>(
    notes: &mut NotesOf<'a, V, S, D>,
    word: Word<'a>,
) {
    match number(word.bytes).and_then(|n| u8::try_from(n).ok()) {
        None | Some(0) => notes.fault(2, word.start),
        Some(kind) => {
            if let Some(symbol) = notes.symbols.last_mut() {
                symbol.kind = kind;
            }
        }
    }
}

// "each a declared variable or `_`", or `=` and a number.
fn argument<'a, const V: usize, const S: usize, const D: usize>(
    notes: &mut NotesOf<'a, V, S, D>,
    word: Word<'a>,
) {
    let argument = match word.bytes {
        b"_" => Some(Argument::Ignored),
        [b'=', digits @ ..] => fixed(notes, word, digits),
        _ => variable(notes, word),
    };
    if let (Some(symbol), Some(argument)) = (notes.symbols.last_mut(), argument) {
        let _ = symbol.arguments.try_push(argument);
    }
}

fn fixed<'a, const V: usize, const S: usize, const D: usize>(
    notes: &mut NotesOf<'a, V, S, D>,
    word: Word<'a>,
    digits: &[u8],
) -> Option<Argument> {
    let number = number(digits);
    if number.is_none() {
        notes.fault(2, word.start);
    }
    number.map(Argument::Fixed)
}

// "a symbol's name among ARGS … is 5".
fn variable<'a, const V: usize, const S: usize, const D: usize>(
    notes: &mut NotesOf<'a, V, S, D>,
    word: Word<'a>,
) -> Option<Argument> {
    formed(notes, word);
    let v = notes.variables.iter().position(|w| w.is(word.bytes));
    if v.is_none() {
        notes.fault(5, word.start);
    }
    v.map(Argument::Variable)
}
