// The listing over the lent calls alone: `book.txt` and the records of standard input, printed as document 01 says. All that a program needs
// beside the calls is its own words. The gate runs it on B1 with a full pool, refused records, 128 rows to an event and a short last record.
#![tactic(auto)]

use lent::{BOOK_WORDS, STATE_WORDS, TALLY_WORDS};
use output::{Listing, Rows};
use std::io::{Read, Write};
use std::{fs, io};

// What is lent for rows, and for a text.
const BUFFER: usize = 65536;

// The records of a reader, from a fresh state on.
fn list<E: Read, W: Write + Drop>(
    book: &[u32; BOOK_WORDS],
    events: &mut E,
    writer: W,
) -> io::Result<()> {
    let mut buffer = [0u8; BUFFER];
    let mut state = [0u32; STATE_WORDS];
    let mut tally = [0u64; TALLY_WORDS];
    lent::watch_fresh(&mut state);
    Listing::new(writer).list(
        events,
        0,
        &mut buffer,
        Rows::OfOneBook,
        |bytes: &[u8], rows: &mut [u8]| {
            let mut count = 0;
            let answer = lent::watch_event(
                book, &mut state, bytes, rows, 0, &mut tally, &mut count,
            );
            (answer, count)
        },
    )
}

fn main(rt: HostRuntime) -> io::Result<()> {
    let mut file = fs::open(&rt, "book.txt")?;
    let mut text = [0u8; BUFFER];
    let n = input::fill(&mut file, &mut text)?;
    let mut book = [0u32; BOOK_WORDS];
    let mut place: usize = 0;
    let mut begins: usize = 0;
    let mut ends: usize = 0;
    let number = lent::watch_read(&text[..n], &mut book, &mut place, &mut begins, &mut ends);
    let mut writer = io::writer(&rt);
    if number == 0 {
        return list(&book, &mut rt.reader(), writer);
    }
    output::print_refused(&mut writer, number, place)
}
