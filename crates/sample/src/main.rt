// The lent calls from Rattle, for a caller to copy: book B1 is read, document 01's six events are taken one by one, and their rows are printed.
// The program keeps all memory: the words of book, state and tally, and a buffer for one row, 24 bytes.
#![tactic(auto)]

use std::io;

fn print(rt: &impl Print, word: &str, number: u64) -> io::Result<()> {
    print!(rt; "{word}{number}")
}

fn wide(x: u8) -> u64 {
    x as u64
}

// One event: its kind, its argument count, and two arguments, which here fit a byte; so do the values of a row, at 8 and 12.
fn take(
    rt: &impl Print,
    book: &[u32; lent::BOOK_WORDS],
    state: &mut [u32; lent::STATE_WORDS],
    tally: &mut [u64; lent::TALLY_WORDS],
    event: [u8; 4],
) -> io::Result<()> {
    let mut record = [0u8; 20];
    record[0] = event[0];
    record[1] = event[1];
    record[4] = event[2];
    record[8] = event[3];
    let mut row = [0u8; 24];
    let mut count: usize = 0;
    let answer = lent::watch_event(book, state, &record, &mut row, 0, tally, &mut count);
    if answer == 0 && count == 1 {
        print(rt, "event ", wide(row[0]))?;
        print(rt, ": row ", wide(row[8]))?;
        print(rt, " ", wide(row[12]))?;
        rt.println("")?;
    }
    Ok(())
}

fn main(rt: HostRuntime) -> io::Result<()> {
    let text = b"vars d s\nsym load 1 d s\nsym drop 2 d\nsym clean 3 d\nmatch load drop+\n";
    let mut book = [0u32; lent::BOOK_WORDS];
    let mut state = [0u32; lent::STATE_WORDS];
    let mut tally = [0u64; lent::TALLY_WORDS];
    let mut place: usize = 0;
    let mut begins: usize = 0;
    let mut ends: usize = 0;
    if lent::watch_read(text, &mut book, &mut place, &mut begins, &mut ends) == 0 {
        lent::watch_fresh(&mut state);
        take(&rt, &book, &mut state, &mut tally, [1, 2, 1, 7])?;
        take(&rt, &book, &mut state, &mut tally, [1, 2, 2, 8])?;
        take(&rt, &book, &mut state, &mut tally, [2, 1, 1, 0])?;
        take(&rt, &book, &mut state, &mut tally, [3, 1, 2, 0])?;
        take(&rt, &book, &mut state, &mut tally, [2, 1, 2, 0])?;
        take(&rt, &book, &mut state, &mut tally, [2, 1, 1, 0])?;
    }
    print(&rt, "accepted ", tally[0])?;
    print(&rt, ", rows ", tally[2])?;
    rt.println("")
}
