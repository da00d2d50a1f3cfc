// The listing of fourteen pairs of files, each below its heading, for the gate to run it on what document 01's sample does not have.
#![tactic(auto)]

use std::io;
use std::rt::Files;

fn list(rt: &(impl Files + Print), heading: &str, book: &str, events: &str) -> io::Result<()> {
    rt.println(heading)?;
    printing::print_files(rt, book, events, 0)
}

// - A refused book, `match a*` of document 01, 7 at 23, with an event, which must print nothing.
// - Book B1 with records that are refused, the last of them too short, and values of up to 32 bits: load(1,7), drop(1), a record of kind 0,
//   drop(1), load(1,4294967295), load(1,65536), drop(1) with three rows, load(16909060,0), drop(16909060), load(2,8), then 19 bytes of a
//   drop(2).
// - Beyond what is gathered before it is written: no variables, `sym a 1 _`, `sym b 1 _`, `match a b`, and 7,000 equal records (140,000 bytes);
//   from the second on each gives the empty valuation, printed as `row` alone.
// - A book of 4,096 bytes and one more; the same without it, with a record of one byte at the end.
// - Four variables: 128 disjuncts, a load that has no room, and 25 drops with 128 rows each, in their order, over what is gathered.
// - Three variables and 400 rows to one event, 9,600 bytes.
// - A book of no bytes; no records.
// - 14 x 128 rows to one event, 43,008 bytes of the 65,536 that are lent, with values of ten digits: one row is 48 bytes long, and one begins where
//   65,489 bytes are gathered.
// - Fixed arguments: `vars s`, load 1 =3 s, drop 2 =3, clean 3 =3, `match load drop` on load(3,7), load(4,8), clean(4), drop(4), drop(3), load(3,9),
//   clean(3), drop(3); only the fifth has a row, 7.
// - Fixed arguments at four places: `vars d`, a 1 =3 d _ =4, b 1 _ _ =9 d, `match a | b` on 1(3,7,9,4), 1(3,7,8,4), 1(3,7,8,5), 1(4,7,8,4), 1(5,6,9,8),
//   and on 1(3,7,9,7), 1(3,7,9,4294967295).
// - B1 after 999,998 accepted events: two more are accepted, then a record out of form is 10, one in form 11.
// - B1 after 900,000, and the 7,000 records, which concern nothing: 77,000 bytes of lines without a row.
fn main(rt: HostRuntime) -> io::Result<()> {
    list(&rt, "refused", "refused.txt", "refused.events")?;
    list(&rt, "short", "short.txt", "short.events")?;
    list(&rt, "long", "long.txt", "long.events")?;
    list(&rt, "excess", "excess.txt", "excess.events")?;
    list(&rt, "limit", "limit.txt", "limit.events")?;
    list(&rt, "many", "many.txt", "many.events")?;
    list(&rt, "wide", "wide.txt", "wide.events")?;
    list(&rt, "empty", "empty.txt", "short.events")?;
    list(&rt, "nothing", "short.txt", "empty.events")?;
    list(&rt, "most", "most.txt", "most.events")?;
    list(&rt, "fixed", "fixed.txt", "fixed.events")?;
    list(&rt, "places", "places.txt", "places.events")?;
    rt.println("late")?;
    printing::print_files(&rt, "short.txt", "late.events", 999998)?;
    rt.println("bare")?;
    printing::print_files(&rt, "short.txt", "long.events", 900000)
}
