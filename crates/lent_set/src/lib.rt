// Several books on one line, over lent memory, for programs in C and Rust too: the books of a set in one slice of words, their states in another, and a
// count. An event that one book would refuse is taken by none. No call has a `requires`, and none keeps anything; see the crate lent for what is lent.
#![tactic(auto)]

ghost use Rattle.std.specs.Prelude.{◌≡◌, true, ◌+◌, ◌*◌, ◌≤◌, length, IfOk, IfErr};
ghost use Rattle.laws.specs.Checks.{first_failing};
ghost use Rattle.laws.specs.Lists.{gather, numbers};
ghost use Rattle.laws.specs.Parts.{splice, front};
ghost use Rattle.meaning.specs.Rows.{row_limit};
ghost use Rattle.form.specs.Text.{is_bytes};
ghost use Rattle.record.specs.Records.{event_in};
ghost use Rattle.row.specs.RowBytes.{row_size};
ghost use Rattle.calls.specs.Answers.{number_of};
ghost use Rattle.calls.specs.Calls.{fresh_state};
ghost use Rattle.blocks.specs.StateBlock.{state_size, state_words};
ghost use Rattle.parts.specs.Parts.{part_rows, part_bytes, rows_together, number_for};
ghost use Rattle.parts.specs.SetBlock.{set_limit, bad_count, count_checks, book_part, parts_in, states_after, set_left, set_fresh};

use calls::EventAnswer;
pub use lent::{BOOK_WORDS, STATE_WORDS, TALLY_WORDS};

// The most books of a set.
pub const BOOKS: usize = 8;

const UNSOUND: usize = 9;

const NO_SPACE: usize = 13;

const BAD_COUNT: usize = 14;

fn bad_count(count: usize) -> bool
    ensures { result ≡ bad_count count }
{
    count == 0 || BOOKS < count
}

// What book number k would answer, the space for its rows apart: how many rows there are, or its refusal; unsound where its words or its state are not
// wholly lent.
fn judge_at(books: &[u32], states: &[u32], k: usize, bytes: &[u8]) -> Result<usize, EventAnswer>
    requires { k ≤ set_limit }
    ensures passed { IfOk result (λ n. (first_failing 0 (book_part books.now states.now bytes.now k).checks ≡ 0)
        × (n ≡ length (part_rows (event_in bytes.now) (book_part books.now states.now bytes.now k)))
        × (n ≤ row_limit)) }
    ensures refused { IfErr result (λ a. (number_of a ≡ first_failing 0 (book_part books.now states.now bytes.now k).checks)
        × (number_of a ≡ 0 → ⊥)) }
{
    let at = k * BOOK_WORDS;
    let end = at + BOOK_WORDS;
    let from = k * STATE_WORDS;
    let upto = from + STATE_WORDS;
    if books.len() < end || states.len() < upto {
        return Err(EventAnswer::Unsound);
    }
    part::judge(&books[at..end], &states[from..upto], bytes)
}

// What the books answer, the space for rows apart: how many rows there are together, or the refusal of the lowest-numbered that refuses.
fn judge_all(
    books: &[u32],
    states: &[u32],
    count: usize,
    bytes: &[u8],
) -> Result<usize, EventAnswer>
    requires { count ≤ set_limit }
    ensures passed { IfOk result (λ n. (first_failing 0 (gather (λ p. p.checks) (parts_in books.now states.now bytes.now count)) ≡ 0)
        × (n ≡ rows_together (event_in bytes.now) (parts_in books.now states.now bytes.now count))
        × (n ≤ set_limit * row_limit)) }
    ensures refused { IfErr result (λ a. (number_of a ≡ first_failing 0 (gather (λ p. p.checks) (parts_in books.now states.now bytes.now count)))
        × (number_of a ≡ 0 → ⊥)) }
{
    let mut rows = 0;
    for k in 0..count {
        rows += judge_at(books, states, k, bytes)?;
    }
    Ok(rows)
}

// What the set answers: the count first, then the books in their order, then the space for the rows of all of them together. How many rows there are, or
// the number of the refusal: 14 is none of an event's answers.
fn judge_set(
    books: &[u32],
    states: &[u32],
    count: usize,
    bytes: &[u8],
    rows: &[u8],
    place: usize,
) -> Result<usize, usize>
    ensures passed { IfOk result (λ n. (number_for (count_checks count) (parts_in books.now states.now bytes.now count) (event_in bytes.now)
        rows.now place ≡ 0)
        × (count ≤ set_limit)
        × (n ≡ rows_together (event_in bytes.now) (parts_in books.now states.now bytes.now count))
        × (n ≤ set_limit * row_limit)) }
    ensures refused { IfErr result (λ m. (m ≡ number_for (count_checks count) (parts_in books.now states.now bytes.now count) (event_in bytes.now)
        rows.now place)
        × (m ≡ 0 → ⊥)) }
{
    if bad_count(count) {
        return Err(BAD_COUNT);
    }
    match judge_all(books, states, count, bytes) {
        Ok(n) => {
            if outcome::fits(rows.len(), place, n) {
                Ok(n)
            } else {
                Err(NO_SPACE)
            }
        }
        Err(answer) => Err(answers::number_of(answer)),
    }
}

// The event taken by every book, none of which refuses it: rows in book order from the place on, and each state stored in its own block.
fn advance_all(
    books: &[u32],
    states: &mut [u32],
    count: usize,
    bytes: &[u8],
    rows: &mut [u8],
    place: usize,
)
    requires { (count ≤ set_limit)
        × (first_failing 0 (gather (λ p. p.checks) (parts_in books.now states.old bytes.now count)) ≡ 0)
        × (place + row_size * rows_together (event_in bytes.now) (parts_in books.now states.old bytes.now count) ≤ length rows.old) }
    ensures { (rows.new ≡ splice place
        (gather (part_bytes (event_in bytes.now)) (parts_in books.now states.old bytes.now count))
        rows.old)
        × (states.new ≡ states_after books.now states.old bytes.now count) }
{
    let mut next = place;
    for k in 0..count {
        let at = k * BOOK_WORDS;
        let end = at + BOOK_WORDS;
        let from = k * STATE_WORDS;
        let upto = from + STATE_WORDS;
        let byte5 = k as u8;
        let n = part::advance(
            &books[at..end],
            &mut states[from..upto],
            bytes,
            rows,
            next,
            byte5,
            0,
        );
        next += n * row::ROW;
    }
}

// So many states made fresh; the words behind them stay.
fn fresh_all(states: &mut [u32], count: usize)
    requires { (count ≤ set_limit) × (state_size * count ≤ length states.old) }
    ensures { states.new ≡ front (gather (λ k. state_words fresh_state) (numbers 0 count)) states.old }
{
    for k in 0..count {
        let from = k * STATE_WORDS;
        let upto = from + STATE_WORDS;
        state_block::put_fresh(&mut states[from..upto]);
    }
}

// Fresh states for a set. Handed back is the number of the answer: 14 for a set of no books or more than 8, 9 where a state is not wholly lent, and then
// nothing is written; or 0.
pub fn watch_set_fresh(states: &mut [u32], count: usize) -> usize
    ensures { set_fresh states.old count ≡ record { number = result; states = states.new } }
{
    if bad_count(count) {
        return BAD_COUNT;
    }
    if states.len() < count * STATE_WORDS {
        return UNSOUND;
    }
    fresh_all(states, count);
    0
}

// One event over a set. Handed back is the number of the answer, 0 or 9 to 14; left are the count of rows, the rows in the lent buffer from the place on, in
// book order and with the book's number in byte 5, the tally and the next states. On refusal the count is 0 and all else stays but the refused counter.
pub fn watch_set_event(
    books: &[u32],
    states: &mut [u32],
    count: usize,
    bytes: &[u8],
    rows: &mut [u8],
    place: usize,
    tally: &mut [u64; TALLY_WORDS],
    row_count: &mut usize,
) -> usize
    ensures { (set_left books.now states.old count bytes.now rows.old place tally.old
        ≡ record { number = result; rows = row_count.new; buffer = rows.new; tally = tally.new; states = states.new })
        × (is_bytes bytes.now ≡ true) }
{
    let t = tally_block::tally_in(tally);
    match judge_set(books, states, count, bytes, rows, place) {
        Ok(n) => {
            advance_all(books, states, count, bytes, rows, place);
            tally_block::put_tally(tally, t.added(1, 0, n as u64));
            *row_count = n;
            0
        }
        Err(number) => {
            tally_block::put_tally(tally, t.added(0, 1, 0));
            *row_count = 0;
            number
        }
    }
}
