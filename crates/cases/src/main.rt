// Fixed cases, run: the parts of the matcher alone (parts), the full pool (full), and here the calls that change a lent tally,
// `counted::event` and `tally::count`, by `handed`: document 01's six events of B1 with refused ones between, whose answers, rows and counters are
// printed, two rows where their counter has room for one, an unsound book, and counters that count several at once and stop at the largest
// 64-bit value. Before them readings and names by the public calls.
#![tactic(auto)]

mod full;
mod parts;
mod records;
mod score;

use book::Book;
use records::Bytes;
use score::Score;
use std::io;
use tally::Tally;

// The buffer that is lent for rows.
const ROOM: usize = 64;

// Two runs of events. In the first, the second event is of kind 0, and the eighth has a count above four.
const EVENTS: [Bytes; 9] = [
    [1, 2, 1, 7],
    [0, 2, 1, 7],
    [1, 2, 2, 8],
    [2, 1, 1, 0],
    [2, 1, 1, 0],
    [3, 1, 2, 0],
    [2, 1, 2, 0],
    [2, 5, 1, 0],
    [2, 1, 1, 0],
];

const LAST: [Bytes; 3] = [[1, 2, 1, 7], [1, 2, 1, 8], [2, 1, 1, 0]];

fn counters(rt: &impl Print, t: Tally) -> io::Result<()> {
    println!(rt; "{} {} {}", t.accepted, t.refused, t.rows)
}

// A line for each event: answer, rows, and the tally. The place is beyond the buffer at the fourth event.
fn run(rt: &impl Print, book: Book, events: &[Bytes], counted: Tally) -> io::Result<()> {
    let mut state = handed::fresh();
    let mut tally = counted;
    for (i, event) in events.iter().enumerate() {
        let mut rows = [0; ROOM];
        let place = if i == 3 { ROOM + 1 } else { 0 };
        let bytes = records::written(*event);
        let r = handed::counted_event(book, state, &bytes, &mut rows, place, tally);
        print!(rt; "{} {}: ", watch::number_of(r.answer), r.rows)?;
        counters(rt, r.tally)?;
        state = r.state;
        tally = r.tally;
    }
    Ok(())
}

// A tally with room for one row more.
fn almost() -> Tally {
    Tally {
        accepted: 0,
        refused: 0,
        rows: u64::MAX - 1,
    }
}

// Counters that count several at once, that come to the largest value, and stay there.
fn counts(rt: &impl Print) -> io::Result<()> {
    counters(rt, handed::count(Tally::none(), 3, 4, 5))?;
    let t = Tally {
        accepted: u64::MAX - 1,
        refused: u64::MAX,
        rows: 0,
    };
    let one = handed::count(t, 1, 1, 5);
    counters(rt, one)?;
    counters(rt, handed::count(one, 1, 0, u64::MAX))
}

// A name of a text: start, size and bytes; of a number not declared 0, 0 and nothing.
fn named(rt: &impl Print, text: &[u8], n: usize) -> io::Result<()> {
    let p = watch::name_place(text, n);
    print!(rt; "{} {} ", p.start, p.size)?;
    rt.write_all(watch::name(text, n))?;
    rt.println("")
}

// The book of a text; its counts of beginning and of ending positions are printed.
fn read(rt: &impl Print, text: &[u8]) -> io::Result<Book> {
    let r = watch::read(text);
    println!(rt; "{} {}", r.begin_count, r.end_count)?;
    Ok(r.book)
}

// The book of document 01, and some of its names: a variable's, a symbol's, and none.
fn told(rt: &impl Print, text: &[u8]) -> io::Result<Book> {
    for n in [1, 4, 5] {
        named(rt, text, n)?;
    }
    read(rt, text)
}

fn main(rt: HostRuntime) -> io::Result<()> {
    read(
        &rt,
        b"vars d s\nsym a 123 _ s d\nsym b 209 d\nmatch a (b? | a)\n",
    )?;
    let book = told(
        &rt,
        b"vars d s\nsym load 1 d s\nsym drop 2 d\nsym clean 3 d\nmatch load drop+\n",
    )?;
    run(&rt, book, &EVENTS, Tally::none())?;
    run(&rt, book, &LAST, almost())?;
    run(&rt, read(&rt, b"")?, &EVENTS[..2], Tally::none())?;
    counts(&rt)?;
    full::filled(book).report(&rt)?;
    parts::tried().report(&rt)
}
