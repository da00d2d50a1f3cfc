// The watch over lent memory, for programs in C and Rust too: book, state and tally are blocks of words that the caller keeps, and no call keeps
// anything. Parameters are numbers, slices, and references to arrays and numbers: no struct, no enum and no bool crosses. No call has a
// `requires`: any words, bytes, places and numbers are taken or refused. What is lent to one call must not overlap, which borrows see to in Rattle
// and Rust and a caller in C has to (bindings/c/watch.h).
#![tactic(auto)]

ghost use Rattle.std.specs.Prelude.{◌≡◌, true};
ghost use Rattle.form.specs.Text.{is_bytes};
ghost use Rattle.book.specs.Books.{name_place};
ghost use Rattle.calls.specs.Calls.{fresh_state};
ghost use Rattle.blocks.specs.StateBlock.{state_words};
ghost use Rattle.blocks.specs.Lent.{read_left, event_left};

// The words of a book, a state and a tally: a caller keeps so many for each.
pub const BOOK_WORDS: usize = book_block::WORDS;

pub const STATE_WORDS: usize = state_block::WORDS;

pub const TALLY_WORDS: usize = tally_block::WORDS;

// A text read. Handed back is the number of the answer, 0 to 8; left are the book's words, the place beside the answer (0 where the text is accepted),
// and how many positions begin and how many end a word. A refused text leaves a book of zeros and no counts.
pub fn watch_read(
    text: &[u8],
    book: &mut [u32; BOOK_WORDS],
    place: &mut usize,
    begins: &mut usize,
    ends: &mut usize,
) -> usize
    ensures { (read_left text.now
        ≡ record { number = result; book = book.new; place = place.new; begins = begins.new; ends = ends.new })
        × (is_bytes text.now ≡ true) }
{
    let r = watch::read(text);
    let n = book::number_of(r.answer);
    *place = book::place_of(r.answer);
    *begins = r.begin_count as usize;
    *ends = r.end_count as usize;
    if n == 0 {
        book_block::put_book(book, r.book);
        return n;
    }
    book.fill(0);
    n
}

// The name with a number: variables from 0, then symbols. Left are its start in the text and its size, both 0 for a number that is not declared and for a
// text that is refused.
pub fn watch_name(text: &[u8], number: usize, start: &mut usize, size: &mut usize)
    ensures { (start.new ≡ (name_place text.now number).start)
        × (size.new ≡ (name_place text.now number).size) }
{
    let x = watch::name_place(text, number);
    *start = x.start;
    *size = x.size;
}

// A fresh state: every word is written.
pub fn watch_fresh(state: &mut [u32; STATE_WORDS])
    ensures { state.new ≡ state_words fresh_state }
{
    state_block::put_fresh(state);
}

// One event. Handed back is the number of the answer, 0 or 9 to 13; left are the count of rows, the rows in the lent buffer from the place on, the
// tally and the next state. On refusal the count is 0 and all else stays but the refused counter.
pub fn watch_event(
    book: &[u32; BOOK_WORDS],
    state: &mut [u32; STATE_WORDS],
    bytes: &[u8],
    rows: &mut [u8],
    place: usize,
    tally: &mut [u64; TALLY_WORDS],
    count: &mut usize,
) -> usize
    ensures { (event_left book.now state.old bytes.now rows.old place tally.old
        ≡ record { number = result; rows = count.new; buffer = rows.new; tally = tally.new; state = state.new })
        × (is_bytes bytes.now ≡ true) }
{
    let b = book_block::book_in(book);
    let s = state_block::state_in(state);
    let t = tally_block::tally_in(tally);
    let r = watch::event(b, s, bytes, rows, place, t);
    let n = watch::number_of(r.answer);
    tally_block::put_tally(tally, r.tally);
    *count = r.rows;
    if n == 0 {
        state_block::store(state, s.count, r.state);
    }
    n
}
