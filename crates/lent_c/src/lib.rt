// The calls over lent words as C and Rust see them (bindings/c/watch.h): each hands on the call of the crate lent, with its clauses.
#![tactic(auto)]

ghost use Rattle.std.specs.Prelude.{◌≡◌, true};
ghost use Rattle.form.specs.Text.{is_bytes};
ghost use Rattle.book.specs.Books.{name_place};
ghost use Rattle.calls.specs.Calls.{fresh_state};
ghost use Rattle.blocks.specs.StateBlock.{state_words};
ghost use Rattle.blocks.specs.Lent.{read_left, event_left};

use lent::{BOOK_WORDS, STATE_WORDS, TALLY_WORDS};

// A text read. Handed back is the number of the answer, 0 to 8; left are the book's words, the place beside the answer (0 where the text is accepted),
// and how many positions begin and how many end a word. A refused text leaves a book of zeros and no counts.
#[unsafe(no_mangle)]
pub extern "C" fn watch_read(
    text: &[u8],
    book: &mut [u32; BOOK_WORDS],
    place: &mut usize,
    begins: &mut usize,
    ends: &mut usize,
) -> usize
    ensures { (read_left text.now
        ≡ record { number = result; book = book.new; place = place.new; begins = begins.new; ends = ends.new })
        × (is_bytes text.now ≡ true) }
{
    lent::watch_read(text, book, place, begins, ends)
}

// The name with a number: variables from 0, then symbols. Left are its start in the text and its size, both 0 for a number that is not declared and for a
// text that is refused.
#[unsafe(no_mangle)]
pub extern "C" fn watch_name(text: &[u8], number: usize, start: &mut usize, size: &mut usize)
    ensures { (start.new ≡ (name_place text.now number).start)
        × (size.new ≡ (name_place text.now number).size) }
{
    lent::watch_name(text, number, start, size);
}

// A fresh state: every word is written.
#[unsafe(no_mangle)]
pub extern "C" fn watch_fresh(state: &mut [u32; STATE_WORDS])
    ensures { state.new ≡ state_words fresh_state }
{
    lent::watch_fresh(state);
}

// One event. Handed back is the number of the answer, 0 or 9 to 13; left are the count of rows, the rows in the lent buffer from the place on, the
// tally and the next state. On refusal the count is 0 and all else stays but the refused counter.
#[unsafe(no_mangle)]
pub extern "C" fn watch_event(
    book: &[u32; BOOK_WORDS],
    state: &mut [u32; STATE_WORDS],
    bytes: &[u8],
    rows: &mut [u8],
    place: usize,
    tally: &mut [u64; TALLY_WORDS],
    count: &mut usize,
) -> usize
    ensures { (event_left book.now state.old bytes.now rows.old place tally.old
        ≡ record { number = result; rows = count.new; buffer = rows.new; tally = tally.new; state = state.new })
        × (is_bytes bytes.now ≡ true) }
{
    lent::watch_event(book, state, bytes, rows, place, tally, count)
}
