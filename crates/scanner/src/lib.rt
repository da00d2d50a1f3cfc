// The second reader: number and place for any text of a book, by documents 01 and 02. One pass over the bytes, with what has been noted
// so far; it shares no code with the reader and has no recursion. For the program `texts`, which compares the two.
#![tactic(auto)]

#[cfg(test)]
mod tests;
mod tokens;

ghost use Rattle.std.specs.Prelude.{◌≡◌, ◌<◌, length, Some, None};

use noted::{Notes, NotesOf, Phase};

// "at most 4,096 bytes"
const TEXT_BYTES: usize = 4096;

// What is noted of a text, read byte by byte to its end: where no fault is, it is accepted.
pub fn read(text: &[u8]) -> Notes<'_>
    ensures { 4096 < length text.now → result.least ≡ Some (record { place = 4096; number = 1 }) }
{
    let mut notes = Notes::new(text);
    scan(&mut notes);
    notes
}

// The same with as many places as the caller says: where they are fewer than `Notes` has, the fault may be another.
pub fn read_with<const V: usize, const S: usize, const D: usize>(
    text: &[u8],
) -> NotesOf<'_, V, S, D>
    ensures { 4096 < length text.now → result.least ≡ Some (record { place = 4096; number = 1 }) }
{
    let mut notes = NotesOf::new(text);
    scan(&mut notes);
    notes
}

// Reads the text of notes that are new. `read` does not call `read_with`, since the notes that it got would be copied.
fn scan<const V: usize, const S: usize, const D: usize>(notes: &mut NotesOf<'_, V, S, D>)
    ensures { notes.old.least ≡ None → 4096 < length notes.old.text.now → notes.new.least ≡ Some (record { place = 4096; number = 1 }) }
{
    let text = notes.text;
    if TEXT_BYTES < text.len() {
        return notes.fault(1, TEXT_BYTES);
    }
    for (at, b) in text.iter().enumerate() {
        step(notes, at, Some(*b));
    }
    step(notes, text.len(), None);
}

fn step<const V: usize, const S: usize, const D: usize>(
    notes: &mut NotesOf<'_, V, S, D>,
    at: usize,
    byte: Option<u8>,
) {
    match notes.phase {
        Phase::Lines => header::step(notes, at, byte),
        Phase::Pattern => tokens::step(notes, at, byte),
        Phase::Behind => behind(notes, at, byte),
        Phase::Over => {}
    }
}

// "Nothing follows it." Where nothing does, only 7 and 8 are left to judge.
fn behind<const V: usize, const S: usize, const D: usize>(
    notes: &mut NotesOf<'_, V, S, D>,
    at: usize,
    byte: Option<u8>,
) {
    notes.phase = Phase::Over;
    if byte.is_none() {
        tokens::words(notes);
    } else {
        notes.fault(2, at);
    }
}
