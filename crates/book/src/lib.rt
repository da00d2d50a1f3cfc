// The book by value, the answers of a reading, and what a reading hands back. For the reader and the matcher.
#![tactic(auto)]

ghost use Rattle.std.specs.Prelude.{◌≡◌};
ghost use Rattle.book.specs.Answers.{answer_for, number_of, place_of};
ghost use Rattle.book.specs.Books.{empty_book, book_with};

use piece::Piece;
use table::{Name, Symbol, Table};
use text::Refusal;

// "A book is ASCII text, at most 4,096 bytes."
pub const TEXT_LIMIT: usize = 4096;

// Counts, the declaring places of names, the symbol table, and the pattern as positions: index i of `occurrences` and `follows` is
// position i + 1; sets of positions are kept one bit to a position.
#[derive(Clone, Copy, PartialEq, Eq)]
pub struct Book {
    pub variables: usize,
    pub symbols: usize,
    pub names: [Name; table::NAMES],
    pub table: [Symbol; table::SYMBOLS],
    pub positions: usize,
    pub occurrences: [u32; piece::POSITIONS],
    pub begins: u32,
    pub ends: u32,
    pub follows: [u32; piece::POSITIONS],
    pub empty: bool,
}

// The answers 0 to 8 of document 01; a place is the first byte of the offending word or token.
#[derive(Clone, Copy, PartialEq, Eq)]
pub enum ReadingAnswer {
    Accepted,
    TooLong,
    BadLine(usize),
    AboveLimit(usize),
    Redeclared(usize),
    Undeclared(usize),
    BadPattern(usize),
    EmptyWord(usize),
    Unbound(usize),
}

impl From<Refusal> for ReadingAnswer {
    ghost from_gives = { λ e answer. answer ≡ answer_for e };

    fn from(e: Refusal) -> ReadingAnswer {
        match e {
            Refusal::BadLine(p) => ReadingAnswer::BadLine(p),
            Refusal::AboveLimit(p) => ReadingAnswer::AboveLimit(p),
            Refusal::Redeclared(p) => ReadingAnswer::Redeclared(p),
            Refusal::Undeclared(p) => ReadingAnswer::Undeclared(p),
            Refusal::BadPattern(p) => ReadingAnswer::BadPattern(p),
            Refusal::EmptyWord(p) => ReadingAnswer::EmptyWord(p),
            Refusal::Unbound(p) => ReadingAnswer::Unbound(p),
        }
    }
}

// What a reading hands back: the answer, the book, and the counts of its beginning and ending positions.
#[derive(Clone, Copy, PartialEq, Eq)]
pub struct Reading {
    pub answer: ReadingAnswer,
    pub book: Book,
    pub begin_count: u32,
    pub end_count: u32,
}

// The book of a table and a pattern.
pub fn book_of(t: Table, x: Piece) -> Book
    ensures { result ≡ book_with t x }
{
    let Table {
        variables,
        count,
        names,
        symbols,
    } = t;
    let Piece {
        symbols: occurrences,
        follows,
        ..
    } = x;
    Book {
        variables,
        symbols: count,
        names,
        table: symbols,
        positions: x.size,
        occurrences,
        begins: x.begins,
        ends: x.ends,
        follows,
        empty: x.empty,
    }
}

// The empty book, in which all is zero.
pub fn empty_book() -> Book
    ensures { result ≡ empty_book }
{
    book_of(table::no_table(), piece::nothing())
}

// What a refused text gives.
pub fn refused(answer: ReadingAnswer) -> Reading
    ensures { result ≡ record { answer = answer; book = empty_book; begin_count = 0; end_count = 0 } }
{
    Reading {
        answer,
        book: empty_book(),
        begin_count: 0,
        end_count: 0,
    }
}

// Document 01's number of an answer.
pub fn number_of(a: ReadingAnswer) -> usize
    ensures { result ≡ number_of a }
{
    match a {
        ReadingAnswer::Accepted => 0,
        ReadingAnswer::TooLong => 1,
        ReadingAnswer::BadLine(_) => 2,
        ReadingAnswer::AboveLimit(_) => 3,
        ReadingAnswer::Redeclared(_) => 4,
        ReadingAnswer::Undeclared(_) => 5,
        ReadingAnswer::BadPattern(_) => 6,
        ReadingAnswer::EmptyWord(_) => 7,
        ReadingAnswer::Unbound(_) => 8,
    }
}

// The place beside it.
pub fn place_of(a: ReadingAnswer) -> usize
    ensures { result ≡ place_of a }
{
    match a {
        ReadingAnswer::Accepted => 0,
        ReadingAnswer::TooLong => TEXT_LIMIT,
        ReadingAnswer::BadLine(p)
        | ReadingAnswer::AboveLimit(p)
        | ReadingAnswer::Redeclared(p)
        | ReadingAnswer::Undeclared(p)
        | ReadingAnswer::BadPattern(p)
        | ReadingAnswer::EmptyWord(p)
        | ReadingAnswer::Unbound(p) => p,
    }
}
