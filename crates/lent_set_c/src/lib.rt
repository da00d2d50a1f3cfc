// The calls of a set of books as C and Rust see them: each hands on the call of the crate lent_set, with its clauses.
#![tactic(auto)]

ghost use Rattle.std.specs.Prelude.{◌≡◌, true};
ghost use Rattle.form.specs.Text.{is_bytes};
ghost use Rattle.parts.specs.SetBlock.{set_left, set_fresh};

use lent_set::TALLY_WORDS;

// Fresh states for a set. Handed back is the number of the answer: 14 for a set of no books or more than 8, 9 where a state is not wholly lent, and then
// nothing is written; or 0.
#[unsafe(no_mangle)]
pub extern "C" fn watch_set_fresh(states: &mut [u32], count: usize) -> usize
    ensures { set_fresh states.old count ≡ record { number = result; states = states.new } }
{
    lent_set::watch_set_fresh(states, count)
}

// One event over a set. Handed back is the number of the answer, 0 or 9 to 14; left are the count of rows, the rows in the lent buffer from the place on, in
// book order and with the book's number in byte 5, the tally and the next states. On refusal the count is 0 and all else stays but the refused counter.
#[unsafe(no_mangle)]
pub extern "C" fn watch_set_event(
    books: &[u32],
    states: &mut [u32],
    count: usize,
    bytes: &[u8],
    rows: &mut [u8],
    place: usize,
    tally: &mut [u64; TALLY_WORDS],
    row_count: &mut usize,
) -> usize
    ensures { (set_left books.now states.old count bytes.now rows.old place tally.old
        ≡ record { number = result; rows = row_count.new; buffer = rows.new; tally = tally.new; states = states.new })
        × (is_bytes bytes.now ≡ true) }
{
    lent_set::watch_set_event(books, states, count, bytes, rows, place, tally, row_count)
}
