// The listing of a set of books, for the programs `hall`, of `book0.txt` to `book7.txt` and standard input, and `halls`, of files by their names. Refused
// texts are printed as `book`, index, number, place, and then no event is taken. Otherwise printed is for each record its number, the answer and the row
// count, then its rows, each with its book.
#![tactic(auto)]

ghost use Rattle.std.specs.Prelude.{◌^◌, ◌<◌};

use lent_set::{BOOK_WORDS, BOOKS, STATE_WORDS, TALLY_WORDS};
use output::{Listing, Rows};
use std::io::{ErrorKind, Read, Write};
use std::rt::Files;
use std::{fs, io, str};

// What is lent for rows: 65,536 bytes for each book, of which 16 x 129 rows need 49,536; and for a text.
const ROWS: usize = BOOKS * 65536;

const BUFFER: usize = 65536;

// Names of texts have four letters, a digit, which is the index, and `.txt`.
const NAME: usize = 9;

const DIGIT: usize = 4;

// What became of the text of one book: it is in its words; it was refused; there is no such file, so that the set ends before it; or it cannot be read.
#[derive(Clone, Copy)]
enum Text {
    Accepted,
    Refused,
    Missing,
    Unread,
}

// A text from a reader, as the book with an index. A refused one is printed.
fn read_text<F: Read, W: Write>(
    file: &mut F,
    writer: &mut W,
    book: &mut [u32; BOOK_WORDS],
    k: usize,
) -> io::Result<Text> {
    let mut text = [0u8; BUFFER];
    let n = input::fill(file, &mut text)?;
    let (mut place, mut begins, mut ends) = (0, 0, 0);
    let number = lent::watch_read(&text[..n], book, &mut place, &mut begins, &mut ends);
    if number == 0 {
        return Ok(Text::Accepted);
    }
    output::print_refused_of(writer, k, number, place)?;
    Ok(Text::Refused)
}

// The text with an index. A file that is there and cannot be opened does not end the set, or the set would have fewer books than are there.
fn read_file<R: Files + Print + Eprint>(
    rt: &R,
    first: [u8; NAME],
    book: &mut [u32; BOOK_WORDS],
    k: usize,
) -> io::Result<Text> {
    let mut name = first;
    name[DIGIT] = b'0' + (k % BOOKS) as u8;
    let Ok(path) = str::from_utf8(&name) else {
        eprintln!(rt; "a name that is no text")?;
        return Ok(Text::Unread);
    };
    match fs::open(rt, path) {
        Ok(mut file) => read_text(&mut file, &mut io::writer(rt), book, k),
        Err(e) => {
            if 0 < k && e.kind() == ErrorKind::NotFound {
                return Ok(Text::Missing);
            }
            eprintln!(rt; "{path}: {e}")?;
            Ok(Text::Unread)
        }
    }
}

// The texts from index 0 on, as many as are there, at most eight: how many, if there is a set, at least one text and none refused.
fn read_files(
    rt: &(impl Files + Print + Eprint),
    first: [u8; NAME],
    books: &mut [[u32; BOOK_WORDS]; BOOKS],
) -> io::Result<Option<usize>> {
    let mut refused = false;
    for (k, book) in books.iter_mut().enumerate() {
        match read_file(rt, first, book, k)? {
            Text::Accepted => {}
            Text::Refused => refused = true,
            Text::Missing => return Ok(if refused { None } else { Some(k) }),
            Text::Unread => return Ok(None),
        }
    }
    Ok(if refused { None } else { Some(BOOKS) })
}

// The records of a reader, from fresh states on. N bytes are lent for rows: a parameter, so that no proof computes an array of so many.
fn list<E: Read, W: Write + Drop, const N: usize>(
    books: &[u32],
    count: usize,
    events: &mut E,
    writer: W,
) -> io::Result<()>
    requires { N < 2 ^ 32 }
{
    let mut buffer = [0u8; N];
    let mut states = [0u32; BOOKS * STATE_WORDS];
    let mut tally = [0u64; TALLY_WORDS];
    lent_set::watch_set_fresh(&mut states, count);
    Listing::new(writer).list(
        events,
        0,
        &mut buffer,
        Rows::OfSet,
        |bytes: &[u8], rows: &mut [u8]| {
            let mut row_count = 0;
            let answer = lent_set::watch_set_event(
                books,
                &mut states,
                count,
                bytes,
                rows,
                0,
                &mut tally,
                &mut row_count,
            );
            (answer, row_count)
        },
    )
}

// The whole of it: the listing of the set whose first text has this name, on the records of a reader. No contract can say what is read or written:
// proved are safety and that it ends.
fn print_open<R: Files + Print + Eprint, E: Read>(
    rt: &R,
    first: [u8; NAME],
    events: &mut E,
) -> io::Result<()> {
    let mut books = [[0u32; BOOK_WORDS]; BOOKS];
    match read_files(rt, first, &mut books)? {
        Some(count) => list::<_, _, ROWS>(books.as_flattened(), count, events, io::writer(rt)),
        None => Ok(()),
    }
}

// The listing of `book0.txt` and those behind it, on the records of standard input.
pub fn print(rt: &(impl Files + Print + Eprint + Input)) -> io::Result<()> {
    print_open(rt, *b"book0.txt", &mut rt.reader())
}

// The listing of a set, by the name of its first text, on the records of another file.
pub fn print_files(
    rt: &(impl Files + Print + Eprint),
    first: [u8; NAME],
    events: &str,
) -> io::Result<()> {
    let mut file = fs::open(rt, events)?;
    print_open(rt, first, &mut file)
}
