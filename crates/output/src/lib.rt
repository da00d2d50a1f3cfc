// The lines of a listing, gathered and written: for each record its number, the answer and the row count, then its rows; of a refused text
// `book`, number, place. For the listings over values and over lent words; of a set of books each row and each refused text also has its book.
#![tactic(auto)]

ghost use Rattle.std.specs.Prelude.{◌≡◌, ◌<◌, ◌≤◌, ◌⊎◌, length, take, IfOk, OnOk, OnErr};
ghost use Rattle.std.specs.Io.KnownBytes.{Appends};

use itoa::Buffer;
use record::RECORD;
use row::ROW;
use std::io;
use std::io::{Read, Write};

// How much of the output is gathered before it is written, and what there is room for: a line more, whatever it says.
const GATHERED: usize = 65000;

const ROOM: usize = 65536;

// Bytes of a row: "variable count (byte 4)", "the book number (0 to 7) in byte 5", and where the values begin, four bytes to each.
const VARIABLES: usize = 4;

const BOOK: usize = 5;

const VALUES: usize = 8;

// Whether rows are printed with their book.
#[derive(Clone, Copy, PartialEq, Eq)]
pub enum Rows {
    OfOneBook,
    OfSet,
}

// What is gathered for a writer: the first `size` bytes.
#[derive(Drop)]
pub struct Listing<W: Write + Drop> {
    pub writer: W,
    pub gathered: [u8; ROOM],
    pub size: usize,
    ghost inside: { size ≤ 65536 },
}

impl<W: Write + Drop> Listing<W> {
    pub fn new(writer: W) -> Listing<W>
        ensures { result.size ≡ 0 }
    {
        Listing {
            writer,
            gathered: [0; ROOM],
            size: 0,
        }
    }

    // Writes what is gathered, and then none of it counts as gathered; its bytes stay. Here as below an error is the writer's own, and comes
    // only where something had to be written.
    pub fn flush(&mut self) -> io::Result<()>
        ensures kept { self.new.gathered ≡ self.old.gathered }
        ensures written { OnOk result (Appends (W.contents self.old.writer) (W.contents self.new.writer)
            (take self.old.size self.old.gathered)) }
        ensures emptied { OnOk result (self.new.size ≡ 0) }
        ensures size { OnErr result (self.new.size ≡ self.old.size) }
        ensures some { OnErr result (0 < self.old.size) }
    {
        if 0 < self.size {
            self.writer.write_all(&self.gathered[..self.size])?;
            self.size = 0;
        }
        Ok(())
    }

    // Writes what is gathered where less than a line's room is left. Otherwise it stays gathered: nothing is dropped.
    fn make_room(&mut self) -> io::Result<()>
        ensures kept { self.new.gathered ≡ self.old.gathered }
        ensures room { OnOk result (self.new.size ≤ 65000) }
        ensures written { OnOk result ((self.new.size ≡ self.old.size) ⊎ ((self.new.size ≡ 0)
            × Appends (W.contents self.old.writer) (W.contents self.new.writer) (take self.old.size self.old.gathered))) }
        ensures size { OnErr result (self.new.size ≡ self.old.size) }
        ensures full { OnErr result (65000 < self.old.size) }
    {
        if GATHERED < self.size {
            self.flush()?;
        }
        Ok(())
    }

    // As many of the bytes as there is room for.
    fn put(&mut self, bytes: &[u8]) {
        let n = bytes.len().min(ROOM - self.size);
        self.gathered[self.size..self.size + n].copy_from_slice(&bytes[..n]);
        self.size += n;
    }

    // A number in decimal.
    fn put_number(&mut self, x: u64) {
        self.put(Buffer::new().format(x).as_bytes());
    }

    // The line of a record: its number, the answer and the row count.
    fn put_line(&mut self, number: u64, answer: usize, count: usize) -> io::Result<()>
        ensures kept { OnErr result (self.new.gathered ≡ self.old.gathered) }
        ensures size { OnErr result (self.new.size ≡ self.old.size) }
    {
        self.make_room()?;
        self.put_number(number);
        self.put(b" ");
        self.put_number(answer as u64);
        self.put(b" ");
        self.put_number(count as u64);
        self.put(b"\n");
        Ok(())
    }

    // One row: `row`, of a set its book, and the values, as many as the row says.
    fn put_row(&mut self, row: &[u8], rows: Rows) -> io::Result<()>
        requires { length row.now ≡ 24 }
        ensures kept { OnErr result (self.new.gathered ≡ self.old.gathered) }
        ensures size { OnErr result (self.new.size ≡ self.old.size) }
    {
        self.make_room()?;
        self.put(b"row");
        if rows == Rows::OfSet {
            self.put(b" ");
            self.put_number(row[BOOK] as u64);
        }
        for value in row[VALUES..].chunks_exact(4).take(row[VARIABLES] as usize) {
            self.put(b" ");
            self.put_number(u32::from_le_bytes([value[0], value[1], value[2], value[3]]) as u64);
        }
        self.put(b"\n");
        Ok(())
    }

    // The next record of a reader: how many bytes it has. What is gathered stays so. Where reading fails, it is written first, and the
    // reader's error is handed on; where that fails too, it stays gathered, and the error is the writer's.
    fn next_record<E: Read>(&mut self, events: &mut E, bytes: &mut [u8]) -> io::Result<usize>
        ensures read { IfOk result (λ n. n ≤ length bytes.new) }
        ensures failed { OnErr result (length bytes.new ≡ length bytes.old) }
        ensures kept { self.new.gathered ≡ self.old.gathered }
        ensures size { OnOk result (self.new.size ≡ self.old.size) }
        ensures written { OnErr result ((self.new.size ≡ self.old.size) ⊎ ((self.new.size ≡ 0)
            × Appends (W.contents self.old.writer) (W.contents self.new.writer) (take self.old.size self.old.gathered))) }
    {
        match input::fill(events, bytes) {
            Ok(n) => Ok(n),
            Err(e) => {
                self.flush()?;
                Err(e)
            }
        }
    }

    // All records of a reader, a last short one too: for each its line and its rows, by a call that takes the record and a buffer for rows and
    // gives the answer's number and how many rows it wrote. So many events were accepted before. A proved loop has to end, and nothing says
    // that the input does, so it also ends at the largest 64-bit number of a record, which no input reaches. Where it ends well, all that
    // was gathered is written.
    pub fn list<E: Read, F: FnMut(&[u8], &mut [u8]) -> (usize, usize)>(
        &mut self,
        events: &mut E,
        before: u32,
        buffer: &mut [u8],
        rows: Rows,
        mut call: F,
    ) -> io::Result<()>
        requires { F.IsAlwaysCallable call }
        ensures buffer { length buffer.new ≡ length buffer.old }
        ensures emptied { OnOk result (self.new.size ≡ 0) }
    {
        let mut bytes = [0; RECORD];
        for number in before as u64 + 1..=u64::MAX {
            let size = self.next_record(events, &mut bytes)?;
            if size == 0 {
                break;
            }
            let (answer, count) = call(&bytes[..size], buffer);
            self.put_line(number, answer, count)?;
            for row in buffer.chunks_exact(ROW).take(count) {
                self.put_row(row, rows)?;
            }
        }
        self.flush()
    }
}

// A refused book, and of a set which.
pub fn print_refused<W: Write>(writer: &mut W, number: usize, place: usize) -> io::Result<()> {
    writeln!(writer, "book {number} {place}")
}

pub fn print_refused_of<W: Write>(
    writer: &mut W,
    book: usize,
    number: usize,
    place: usize,
) -> io::Result<()> {
    writeln!(writer, "book {book} {number} {place}")
}
