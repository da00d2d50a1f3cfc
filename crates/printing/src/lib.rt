// The listing, for the programs `listing`, of `book.txt` and standard input, and `listings`, of files by their names.
// A refused text is printed as `book`, number, place. Otherwise the events are taken, 20 bytes to each, and printed is for each its
// number, the answer and the row count, then its rows.
#![tactic(auto)]

use book::{Book, ReadingAnswer};
use output::{Listing, Rows};
use std::io::{Read, Write};
use std::rt::Files;
use std::{fs, io};
use tally::Tally;

// What is lent for rows, and for a text.
const BUFFER: usize = 65536;

// The records of a reader, from the state that holds nothing after so many accepted events: none, but where `listings` shows what comes after
// 1,000,000.
fn list<E: Read, W: Write + Drop>(
    book: Book,
    events: &mut E,
    writer: W,
    before: u32,
) -> io::Result<()> {
    let mut buffer = [0u8; BUFFER];
    let mut state = watch::fresh();
    state.number = before;
    let mut tally = Tally::none();
    Listing::new(writer).list(
        events,
        before,
        &mut buffer,
        Rows::OfOneBook,
        |bytes: &[u8], rows: &mut [u8]| {
            let taken = watch::event(book, state, bytes, rows, 0, tally);
            state = taken.state;
            tally = taken.tally;
            (watch::number_of(taken.answer), taken.rows)
        },
    )
}

// The whole of it: the listing of the book in the named file, on the records of a reader. No contract can say what is read or
// written: proved are safety and that it ends.
fn print_open<R: Files + Print, E: Read>(
    rt: &R,
    book: &str,
    events: &mut E,
    before: u32,
) -> io::Result<()> {
    let mut file = fs::open(rt, book)?;
    let mut buffer = [0u8; BUFFER];
    let n = input::fill(&mut file, &mut buffer)?;
    let mut writer = io::writer(rt);
    let r = watch::read(&buffer[..n]);
    match r.answer {
        ReadingAnswer::Accepted => list(r.book, events, writer, before),
        refused => {
            let (number, place) = (book::number_of(refused), book::place_of(refused));
            output::print_refused(&mut writer, number, place)
        }
    }
}

// The listing of `book.txt`, on the records of standard input.
pub fn print(rt: &(impl Files + Print + Input)) -> io::Result<()> {
    let mut events = rt.reader();
    print_open(rt, "book.txt", &mut events, 0)
}

// The listing of a book's file, on the records of another, after so many accepted events in the state that holds nothing.
pub fn print_files(
    rt: &(impl Files + Print),
    book: &str,
    events: &str,
    before: u32,
) -> io::Result<()> {
    let mut file = fs::open(rt, events)?;
    print_open(rt, book, &mut file, before)
}
