// The reader of books: a lent text gives the book, or a number and a place; and the declared names as parts of that text.
// For the buyer of the Bench level. No public function has a `requires`.
#![tactic(auto)]

ghost use Rattle.std.specs.Prelude.{◌≡◌, true, ◌+◌, ◌≤◌, length, MatchResult};
ghost use Rattle.form.specs.Limits.{text_limit};
ghost use Rattle.form.specs.Text.{is_bytes};
ghost use Rattle.table.specs.Tables.{name_of};
ghost use Rattle.book.specs.Answers.{answer_for};
ghost use Rattle.book.specs.Books.{empty_book, reading, name_place, name_bytes};

use book::{Reading, ReadingAnswer};
use table::Name;
use text::Refusal;

// The reading of a text that is not too long, or why it is refused.
fn short_read(s: &[u8]) -> Result<Reading, Refusal>
    requires { length s.now ≤ text_limit }
    ensures { MatchResult result (λ r. r ≡ reading s.now)
        (λ e. record { answer = answer_for e; book = empty_book; begin_count = 0; end_count = 0 } ≡ reading s.now) }
{
    let l = match lines::lines_of(s) {
        Ok(l) => l,
        Err(e) => return Err(e.refusal),
    };
    let m = matching::match_from(s, l.table, l.place)?;
    Ok(Reading {
        answer: ReadingAnswer::Accepted,
        book: book::book_of(l.table, m.piece),
        begin_count: m.piece.begins.count_ones(),
        end_count: m.piece.ends.count_ones(),
    })
}

// The reading of any bytes; that what is lent is bytes, as the theorems about readings ask, a caller has from here.
pub fn read(s: &[u8]) -> Reading
    ensures { (result ≡ reading s.now) × (is_bytes s.now ≡ true) }
{
    if book::TEXT_LIMIT < s.len() {
        return book::refused(ReadingAnswer::TooLong);
    }
    match short_read(s) {
        Ok(r) => r,
        Err(e) => book::refused(ReadingAnswer::from(e)),
    }
}

// The declaring place of the name with that number: variables from 0, then symbols; an empty one for a number not declared or a
// refused text.
pub fn name_place(s: &[u8], number: usize) -> Name
    ensures { result ≡ name_of (name_place s.now number) }
{
    let r = read(s);
    let b = r.book;
    let count = b.variables + b.symbols;
    if number < count {
        return b.names[number];
    }
    Name { start: 0, size: 0 }
}

// The declared name as that very part of the lent text.
pub fn name(s: &[u8], number: usize) -> &[u8]
    ensures bytes { result.now ≡ name_bytes s.now number }
    ensures place { (result.ref_ptr.0 ≡ s.entry.ref_ptr.0) × (result.ref_ptr.1 ≡ s.entry.ref_ptr.1 + (name_place s.now number).start) }
{
    let n = name_place(s, number);
    let a = n.start;
    let e = n.start + n.size;
    &s[a..e]
}
