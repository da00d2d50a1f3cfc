// The reader of patterns: alternation, sequence and atom call one another; the allowed depth, then the remaining bytes, falls.
// For the reader of books.
#![tactic(auto)]

ghost use Rattle.std.specs.Prelude.{◌≡◌, ◌+◌, ◌≤◌};
ghost use Rattle.form.specs.Limits.{open_limit};
ghost use Rattle.form.specs.Parse as Parse;
ghost use Rattle.form.specs.Reading.{variables_of};
ghost use Rattle.table.specs.Tables.{view_table};
ghost use Rattle.items.specs.Results.{parsed_of, Readable};

use items::Parsed;
use table::Table;
use text::Refusal;

// "at most 16 parentheses open together"
pub const DEPTH: usize = 16;

// Sequences divided by `|`.
#[cycle(alternation_atom_sequence)]
pub fn alternation(
    s: &[u8],
    t: Table,
    depth: usize,
    used: usize,
    p: usize,
) -> Result<Parsed, Refusal>
    requires { Readable s.now t used p × (depth ≤ open_limit) }
    ensures { result ≡ parsed_of (variables_of (view_table t).table) used (Parse.alternation_from s.now (view_table t).symbols
        (Parse.enough depth p + 3) depth used p) }
{
    let a = sequence(s, t, depth, used, p)?;
    let q = text::spaces_end(s, a.place);
    if text::peek(s, q) == Some(b'|') {
        let b = alternation(s, t, depth, used + a.piece.size, q + 1)?;
        let piece = compound::either(a.piece, b.piece);
        return Ok(Parsed { piece, ..b });
    }
    Ok(a)
}

// One or more items.
#[cycle(alternation_atom_sequence)]
fn sequence(s: &[u8], t: Table, depth: usize, used: usize, p: usize) -> Result<Parsed, Refusal>
    requires { Readable s.now t used p × (depth ≤ open_limit) }
    ensures { result ≡ parsed_of (variables_of (view_table t).table) used (Parse.sequence_from s.now (view_table t).symbols
        (Parse.enough depth p + 2) depth used p) }
{
    let first = atom(s, t, depth, used, p)?;
    let a = items::item(s, first);
    if items::begins_item(s, a.place) {
        let b = sequence(s, t, depth, used + a.piece.size, a.place)?;
        let piece = compound::sequence(a.piece, b.piece);
        return Ok(Parsed { piece, ..b });
    }
    Ok(a)
}

// A name or an alternation in parentheses.
#[cycle(alternation_atom_sequence)]
fn atom(s: &[u8], t: Table, depth: usize, used: usize, p: usize) -> Result<Parsed, Refusal>
    requires { Readable s.now t used p × (depth ≤ open_limit) }
    ensures { result ≡ parsed_of (variables_of (view_table t).table) used (Parse.atom_from s.now (view_table t).symbols
        (Parse.enough depth p + 1) depth used p) }
{
    let q = text::spaces_end(s, p);
    match text::peek(s, q) {
        Some(b'(') => {
            if depth == 0 {
                return Err(Refusal::AboveLimit(q));
            }
            let a = alternation(s, t, depth - 1, used, q + 1)?;
            items::closed(s, a)
        }
        Some(b) if text::is_lower(b) => items::name_atom(s, t, used, q),
        _ => Err(items::unfit(s, q)),
    }
}
