// The listing program: `book.txt` and the events of standard input, printed as document 01 says.
// The gate runs it on book B1 and document 01's six events.
#![tactic(auto)]

use std::io;

fn main(rt: HostRuntime) -> io::Result<()> {
    printing::print(&rt)
}
