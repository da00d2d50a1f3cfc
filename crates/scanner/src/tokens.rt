// The pattern, byte by byte: a name as long as it goes, or a sign; how many parentheses are open, and whether an item stands before, in
// place of recursion. For the second reader.
use noted::declared::{self, Word};
use noted::levels::{self, OPEN_LIMIT};
use noted::{NotesOf, Phase, Run};

// "At most 31 symbol occurrences".
const OCCURRENCE_LIMIT: usize = 31;

pub fn step<const V: usize, const S: usize, const D: usize>(
    notes: &mut NotesOf<'_, V, S, D>,
    at: usize,
    byte: Option<u8>,
) {
    if let Run::Word(from) = notes.run {
        if byte.is_some_and(declared::is_inner) {
            return;
        }
        name_end(notes, notes.word(from, at));
    }
    match byte {
        Some(b' ') => {}
        Some(b'\n') | None => line_end(notes, at, byte),
        Some(b) => token(notes, at, b),
    }
}

// 7 and 8 are placed at the first token.
fn token<const V: usize, const S: usize, const D: usize>(
    notes: &mut NotesOf<'_, V, S, D>,
    at: usize,
    b: u8,
) {
    notes.first = notes.first.or(Some(at));
    if b.is_ascii_lowercase() {
        notes.run = Run::Word(at);
    } else {
        sign(notes, at, b);
    }
}

// "a variable's in the pattern, is 5": only symbols are looked at.
fn name_end<'a, const V: usize, const S: usize, const D: usize>(
    notes: &mut NotesOf<'a, V, S, D>,
    name: Word<'a>,
) {
    let symbol = notes.symbols.iter().find(|s| s.name.is(name.bytes));
    let binds = symbol.map(|s| s.binds());
    if notes.occurrences == OCCURRENCE_LIMIT || name.is_long() {
        notes.fault(3, name.start);
    }
    if binds.is_none() {
        notes.fault(5, name.start);
    }
    notes.occurrences = notes.occurrences.saturating_add(1);
    notes.run = Run::Nothing;
    notes.levels.add(levels::NOT_EMPTY | binds.unwrap_or(0));
}

// Every sign but `(` wants an item before it, as does the end.
fn sign<const V: usize, const S: usize, const D: usize>(
    notes: &mut NotesOf<'_, V, S, D>,
    at: usize,
    b: u8,
) {
    if b != b'(' && !notes.levels.stands() {
        notes.fault(6, at);
    }
    match b {
        b'(' => open(notes, at),
        b')' => close(notes, at),
        b'|' => notes.levels.divide(),
        b'*' | b'?' => notes.levels.optional(),
        b'+' => {}
        _ => notes.fault(6, at),
    }
}

// "a missing one is placed at the LF, a missing LF at the book's end"
fn line_end<const V: usize, const S: usize, const D: usize>(
    notes: &mut NotesOf<'_, V, S, D>,
    at: usize,
    byte: Option<u8>,
) {
    if !notes.levels.stands() || notes.levels.depth() != 0 {
        notes.fault(6, at);
    }
    if byte.is_none() {
        notes.fault(2, at);
    }
    notes.phase = if notes.least.is_none() {
        Phase::Behind
    } else {
        Phase::Over
    };
}

fn open<const V: usize, const S: usize, const D: usize>(
    notes: &mut NotesOf<'_, V, S, D>,
    at: usize,
) {
    if notes.levels.depth() == OPEN_LIMIT {
        notes.fault(3, at);
    }
    notes.levels.open();
}

fn close<const V: usize, const S: usize, const D: usize>(
    notes: &mut NotesOf<'_, V, S, D>,
    at: usize,
) {
    if !notes.levels.close() {
        notes.fault(6, at);
    }
}

// "No word of the pattern may be empty, and each word must contain, for each variable, a symbol that binds it."
pub fn words<const V: usize, const S: usize, const D: usize>(notes: &mut NotesOf<'_, V, S, D>) {
    let has = notes.levels.alternation();
    let first = notes.first.unwrap_or(0);
    if has & levels::NOT_EMPTY == 0 {
        notes.fault(7, first);
    }
    if (0..notes.variables.len()).any(|v| has & 1 << (v % 8) == 0) {
        notes.fault(8, first);
    }
}
