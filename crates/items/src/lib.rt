// The leaves of a pattern's reader: names, signs behind an atom, a closing parenthesis, tokens that cannot stand. For the cycle of the
// crate grammar.
#![tactic(auto)]

ghost use Rattle.std.specs.Prelude.{◌≡◌, ℕ, ◌≤◌, length, Ok};
ghost use Rattle.form.specs.Scan as Scan;
ghost use Rattle.form.specs.Parse as Parse;
ghost use Rattle.form.specs.Reading.{variables_of};
ghost use Rattle.text.specs.Refusals.{refusal_of};
ghost use Rattle.table.specs.Tables.{view_table};
ghost use Rattle.items.specs.Results.{parsed_of, Readable};

use piece::Piece;
use table::Table;
use text::Refusal;

// What is read of a pattern: the place to go on from and the fragment.
#[derive(Clone, Copy, PartialEq, Eq)]
pub struct Parsed {
    pub place: usize,
    pub piece: Piece,
}

// A token that cannot stand at q.
pub fn unfit(s: &[u8], q: usize) -> Refusal
    ensures { result ≡ refusal_of (Parse.unfit s.now q).fault q }
{
    match text::peek(s, q) {
        None => Refusal::BadLine(q),
        Some(_) => Refusal::BadPattern(q),
    }
}

// An item from its atom: `*`, `+`, `?` behind it.
pub fn item(s: &[u8], atom: Parsed) -> Parsed
    requires { atom.place ≤ length s.now }
    ensures { (vars : ℕ → ℕ) (used : ℕ) (x : Parse.Parsed) → Ok atom ≡ parsed_of vars used x → Ok result ≡ parsed_of vars used (Parse.item_of s.now x) }
{
    let mut read = atom;
    for (i, b) in s[atom.place..].iter().enumerate() {
        let piece = match *b {
            b' ' => continue,
            b'*' => compound::star(read.piece),
            b'+' => compound::plus(read.piece),
            b'?' => compound::optional(read.piece),
            _ => return read,
        };
        read = Parsed {
            place: atom.place + i + 1,
            piece,
        };
    }
    read
}

// A name in a pattern, from q on, where a letter stands.
pub fn name_atom(s: &[u8], t: Table, used: usize, q: usize) -> Result<Parsed, Refusal>
    requires { Readable s.now t used q }
    ensures { result ≡ parsed_of (variables_of (view_table t).table) used (Parse.name_atom s.now (view_table t).symbols used q) }
{
    let e = words::name_end(s, q);
    if words::NAME_LIMIT < e - q || piece::POSITIONS <= used {
        return Err(Refusal::AboveLimit(q));
    }
    let names = &t.names[t.variables..t.variables + t.count];
    let Some(a) = lookup::find(s, names, q, e) else {
        return Err(Refusal::Undeclared(q));
    };
    let bound = table::bound_in(t.symbols[a]);
    Ok(Parsed {
        place: e,
        piece: piece::literal(used + 1, a as u32, bound),
    })
}

// The closing parenthesis behind an alternation.
pub fn closed(s: &[u8], a: Parsed) -> Result<Parsed, Refusal>
    requires { a.place ≤ length s.now }
    ensures { (vars : ℕ → ℕ) (used : ℕ) (x : Parse.Parsed) → Ok a ≡ parsed_of vars used x → result ≡ parsed_of vars used (Parse.closed s.now x) }
{
    let q = text::spaces_end(s, a.place);
    if text::peek(s, q) == Some(b')') {
        Ok(Parsed { place: q + 1, ..a })
    } else {
        Err(unfit(s, q))
    }
}

// Whether the first token from p on begins an item.
pub fn begins_item(s: &[u8], p: usize) -> bool
    ensures { result ≡ Parse.begins_item (Scan.at s.now (Scan.spaces_end s.now p)) }
{
    let q = text::spaces_end(s, p);
    match text::peek(s, q) {
        Some(b) => text::is_lower(b) || b == b'(',
        None => false,
    }
}
