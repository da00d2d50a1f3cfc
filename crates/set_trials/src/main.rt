// Random sets of 1 to 8 books on random traces: each call is held to the plain calls on each book alone, and the rows of each book to those of the second
// matcher over the events that the set accepted; then the same events in another order. Prints what was compared.
#![tactic(auto)]

use set_calls::{Runs, Score, Set};
use std::io;

const SETS: u64 = 500;

// The answers by which a record is refused: the first, "13 for a row buffer too short", "14 for a set of no books or more than 8".
const REFUSALS: usize = 9;

const NO_SPACE: usize = 13;

const BAD_COUNT: usize = 14;

fn main(rt: HostRuntime) -> io::Result<()> {
    let mut runs = Runs::none();
    for i in 0..SETS {
        let mut set = Set::chosen(i);
        if !set.trials().is_empty() {
            compared(&mut set, &mut runs);
        }
    }
    report(&rt, &runs.score)
}

// A first run tells which events the set accepts, so that the second matcher can list their rows for each book; in the second run these are compared; the
// third has the events in another order.
fn compared(set: &mut Set, runs: &mut Runs) {
    runs.run(set);
    set.list();
    runs.run(set);
    set.reorder();
    runs.run(set);
    runs.score.set(set.trials().len());
}

fn report(rt: &impl Print, score: &Score) -> io::Result<()> {
    let Score {
        sets,
        books,
        answered,
        together,
        rows,
        differences,
    } = score;
    println!(rt; "{sets} sets, three runs of each")?;
    println!(rt; "{books} books")?;
    println!(rt; "{rows} rows")?;
    line(rt, answered[0], 0)?;
    for number in REFUSALS..=NO_SPACE {
        line(rt, answered[number], number)?;
    }
    println!(rt; "{together} of these for the rows of all books together")?;
    line(rt, answered[BAD_COUNT], BAD_COUNT)?;
    println!(rt; "{differences} differences")
}

fn line(rt: &impl Print, n: u32, number: usize) -> io::Result<()> {
    println!(rt; "{n} answered {number}")
}
