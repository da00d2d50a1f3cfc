// The edits of a text: a text without what follows a place, with a byte or the rest of a line left out or doubled, with two bytes
// exchanged, with another byte in the place of one or before it. For the program `texts`.
#![tactic(auto)]

mod bases;
#[cfg(test)]
mod tests;

ghost use Rattle.std.specs.Prelude.{◌≡◌, ◌≤◌, length, drop};

pub use bases::{BASES, ROOM, Text, spaces, spaces_into, zeros, zeros_into};

// The bytes that are put in.
const OTHERS: [u8; 23] = *b" \n\r\t\0abz01569_*+?|()A\xff=";

// What is done at a place. There are so many kinds: six, and two for each byte that is put in.
#[derive(Clone, Copy)]
pub enum Kind {
    Cut,
    Omit,
    Double,
    OmitLine,
    DoubleLine,
    Exchange,
    Insert(u8),
    Replace(u8),
}

pub const KINDS: usize = 6 + 2 * OTHERS.len();

impl Kind {
    // The kind with a number, from 0.
    pub fn numbered(n: usize) -> Kind {
        let other = OTHERS[n / 2 % OTHERS.len()];
        match n {
            0 => Kind::Cut,
            1 => Kind::Omit,
            2 => Kind::Double,
            3 => Kind::OmitLine,
            4 => Kind::DoubleLine,
            5 => Kind::Exchange,
            _ if n % 2 == 0 => Kind::Insert(other),
            _ => Kind::Replace(other),
        }
    }
}

// An edited text: what is kept of the text from its start, up to two bytes, and the text again from some place on.
#[derive(Clone, Copy)]
struct Edit {
    keep: usize,
    between: [Option<u8>; 2],
    from: usize,
}

fn edit_of(text: &[u8], kind: Kind, place: usize) -> Edit {
    let p = place.min(text.len());
    let (keep, between, from) = match kind {
        Kind::Cut => (p, [None, None], text.len()),
        Kind::Omit => (p, [None, None], p + 1),
        Kind::Double => (p + 1, [None, None], p),
        Kind::OmitLine => (p, [None, None], next_line(text, p)),
        Kind::DoubleLine => (next_line(text, p), [None, None], p),
        Kind::Exchange => {
            let next = text.get(p + 1).copied();
            (p, [next, text.get(p).copied()], p + 2)
        }
        Kind::Insert(b) => (p, [Some(b), None], p),
        Kind::Replace(b) => (p, [Some(b), None], p + 1),
    };
    Edit {
        keep,
        between,
        from,
    }
}

// The place behind the LF of a line, or behind the text.
fn next_line(text: &[u8], p: usize) -> usize {
    let rest = text.get(p..).unwrap_or(&[]);
    match rest.iter().position(|b| *b == b'\n') {
        Some(n) => p + n + 1,
        None => text.len(),
    }
}

// The text with an edit of a kind at a place.
pub fn edited(text: &[u8], kind: Kind, place: usize, out: &mut Text) {
    let edit = edit_of(text, kind, place);
    out.clear();
    bases::append(out, text.get(..edit.keep).unwrap_or(text));
    for b in edit.between {
        if let Some(b) = b {
            let _ = out.try_push(b);
        }
    }
    bases::append(out, text.get(edit.from..).unwrap_or(&[]));
}

// The same in a lent buffer, as far as it has places: how many bytes are written. Twice those of the text and one are always enough.
pub fn edited_into(text: &[u8], kind: Kind, place: usize, out: &mut [u8]) -> usize
    ensures size { length out.new ≡ length out.old }
    ensures within { result ≤ length out.new }
    ensures behind { drop result out.new ≡ drop result out.old }
{
    let edit = edit_of(text, kind, place);
    let [first, second] = edit.between;
    let n = bases::put(out, 0, text.get(..edit.keep).unwrap_or(text));
    let n = bases::put(out, n, first.as_slice());
    let n = bases::put(out, n, second.as_slice());
    bases::put(out, n, text.get(edit.from..).unwrap_or(&[]))
}
