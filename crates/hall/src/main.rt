// The listing program of a set: `book0.txt` to `book7.txt`, those that are there, and the events of standard input. The gate runs it on B1, B2 and a third
// book: fill(1,7) is refused for B2 alone and taken by none, a drop and a seal each have rows of two books, and records are out of form or short.
#![tactic(auto)]

use std::io;

fn main(rt: HostRuntime) -> io::Result<()> {
    set_printing::print(&rt)
}
