// The pattern's line of a book: the pattern behind the word `match`, its end at the end of the text, and answers 7 and 8.
// For crate `reader`, which calls `match_from` behind the lines.
#![tactic(auto)]

ghost use Rattle.std.specs.Prelude.{◌≡◌, ℕ, ◌≤◌, length, Ok};
ghost use Rattle.form.specs.Limits.{variable_limit};
ghost use Rattle.form.specs.Parse as Parse;
ghost use Rattle.form.specs.Reading.{variables_of, last_line, all_bits, match_from};
ghost use Rattle.table.specs.Tables.{view_table};
ghost use Rattle.items.specs.Results.{parsed_of, Readable};

use items::Parsed;
use table::Table;
use text::Refusal;

// Behind the pattern: the LF, and nothing after it.
fn last_line(s: &[u8], a: Parsed) -> Result<Parsed, Refusal>
    requires { a.place ≤ length s.now }
    ensures { (vars : ℕ → ℕ) (used : ℕ) (x : Parse.Parsed) → Ok a ≡ parsed_of vars used x → result ≡ parsed_of vars used (last_line s.now x) }
{
    let q = text::spaces_end(s, a.place);
    if text::peek(s, q) != Some(text::LF) {
        return Err(items::unfit(s, q));
    }
    if q + 1 != s.len() {
        return Err(Refusal::BadLine(q + 1));
    }
    Ok(Parsed { place: q + 1, ..a })
}

// Whether each of n variables has its bit.
fn all_bits(n: usize, m: u32) -> bool
    requires { n ≤ variable_limit }
    ensures { result ≡ all_bits n m }
{
    for v in 0..n {
        if !piece::has(m, v) {
            return false;
        }
    }
    true
}

// The pattern behind the word `match`, which ends at p, with answers 7 and 8.
pub fn match_from(s: &[u8], t: Table, p: usize) -> Result<Parsed, Refusal>
    requires { Readable s.now t 0 p }
    ensures { result ≡ parsed_of (variables_of (view_table t).table) 0 (match_from s.now (view_table t) p) }
{
    if text::peek(s, p) != Some(text::SPACE) {
        return Err(Refusal::BadLine(p));
    }
    let whole = grammar::alternation(s, t, grammar::DEPTH, 0, p + 1)?;
    let a = last_line(s, whole)?;
    let first = text::spaces_end(s, p + 1);
    if a.piece.empty {
        return Err(Refusal::EmptyWord(first));
    }
    if !all_bits(t.variables, a.piece.bound) {
        return Err(Refusal::Unbound(first));
    }
    Ok(a)
}
