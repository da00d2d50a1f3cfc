// The listings of six sets of books, each below its heading, for the gate to run what `hall` does not have.
#![tactic(auto)]

use std::io;
use std::rt::Files;

fn list(
    rt: &(impl Files + Print + Eprint),
    heading: &str,
    first: [u8; 9],
    events: &str,
) -> io::Result<()> {
    rt.println(heading)?;
    set_printing::print_files(rt, first, events)
}

// - Eight books, some of them equal, with no variables and up to four, rows of all of them to one event, records that are refused, values of 32 bits; a
//   ninth text, out of form, is not of the set.
// - Three pools: book 0 and book 2 (B1) are full; then book 0 alone refuses a load that book 2 has room for again.
// - 14 x 128 rows to one event twice, 86,016 bytes of the 524,288 that are lent.
// - Three texts refused among good ones, document 01's `match a*`, 7 at 23, and `match b`, 5 at 23, and no bytes: no event is taken.
// - A gap behind the first text: the set is that text alone.
// - No first text: nothing but a message on standard error.
fn main(rt: HostRuntime) -> io::Result<()> {
    list(&rt, "many", *b"many0.txt", "many.events")?;
    list(&rt, "full", *b"full0.txt", "full.events")?;
    list(&rt, "most", *b"most0.txt", "most.events")?;
    list(&rt, "poor", *b"poor0.txt", "poor.events")?;
    list(&rt, "gaps", *b"gaps0.txt", "gaps.events")?;
    list(&rt, "none", *b"none0.txt", "none.events")
}
