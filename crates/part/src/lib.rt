// One part of a call over several: a book and its state in lent words, judged on an event, and then moved by it. For the calls of a set, which judge
// every part before any is moved.
#![tactic(auto)]

ghost use Rattle.std.specs.Prelude.{◌≡◌, suc, ◌+◌, ◌*◌, ◌≤◌, length, IfOk, IfErr};
ghost use Rattle.laws.specs.Checks.{first_failing};
ghost use Rattle.laws.specs.Lists.{gather};
ghost use Rattle.laws.specs.Parts.{splice};
ghost use Rattle.meaning.specs.Rows.{row_limit};
ghost use Rattle.record.specs.Records.{event_in};
ghost use Rattle.row.specs.RowBytes.{row_size};
ghost use Rattle.calls.specs.Answers.{number_of};
ghost use Rattle.calls.specs.declared.EventAnswer.TheVariants.{Accepted};
ghost use Rattle.calls.specs.Calls.{decisions, rows_by, state_by};
ghost use Rattle.blocks.specs.BookBlock.{book_size, book_in};
ghost use Rattle.blocks.specs.StateBlock.{state_size, state_in, state_stored};
ghost use Rattle.parts.specs.Parts.{row_with};

use calls::EventAnswer;
use row::RowFields;

// What the book would answer to the event, the space for its rows apart: how many rows there are, or its refusal. Nothing is moved.
pub fn judge(book: &[u32], state: &[u32], bytes: &[u8]) -> Result<usize, EventAnswer>
    requires { (length book.now ≡ book_size) × (length state.now ≡ state_size) }
    ensures passed { IfOk result (λ n. (number_of (first_failing Accepted (decisions (book_in book.now) (state_in state.now) bytes.now)) ≡ 0)
        × (n ≡ length (rows_by (book_in book.now) (state_in state.now) (event_in bytes.now)))
        × (n ≤ row_limit)) }
    ensures refused { IfErr result (λ a. (number_of a ≡ number_of (first_failing Accepted (decisions (book_in book.now) (state_in state.now) bytes.now)))
        × (number_of a ≡ 0 → ⊥)) }
{
    let b = book_block::book_in(book);
    let s = state_block::state_in(state);
    let mut words = [0u32; rows::WORDS];
    let mut next_at = [0u32; state::CAPACITY];
    let mut next = [0u32; packed::WORDS];
    let r = transition::step(b, s, bytes, &mut next_at, &mut next, &mut words)?;
    Ok(r.rows)
}

// An event that the book does not refuse, with space for its rows: they are written from the place on, the next state is stored, and how many rows there
// are is handed back.
pub fn advance(
    book: &[u32],
    state: &mut [u32],
    bytes: &[u8],
    rows: &mut [u8],
    place: usize,
    byte5: u8,
    byte6: u8,
) -> usize
    requires { (length book.now ≡ book_size) × (length state.old ≡ state_size)
        × (number_of (first_failing Accepted (decisions (book_in book.now) (state_in state.old) bytes.now)) ≡ 0)
        × (place + row_size * length (rows_by (book_in book.now) (state_in state.old) (event_in bytes.now)) ≤ length rows.old) }
    ensures { (result ≡ length (rows_by (book_in book.now) (state_in state.old) (event_in bytes.now)))
        × (rows.new ≡ splice place
        (gather (row_with (suc (state_in state.old).number) (book_in book.now).variables byte5 byte6)
        (rows_by (book_in book.now) (state_in state.old) (event_in bytes.now)))
        rows.old)
        × (state.new ≡ state_stored state.old
        (state_by (book_in book.now) (state_in state.old) (event_in bytes.now))) }
{
    let b = book_block::book_in(book);
    let s = state_block::state_in(state);
    let mut words = [0u32; rows::WORDS];
    let mut next_at = [0u32; state::CAPACITY];
    let mut next = [0u32; packed::WORDS];
    // The step accepts, as the `requires` says that no check fails.
    let Ok(r) = transition::step(b, s, bytes, &mut next_at, &mut next, &mut words) else {
        unreachable!()
    };
    let n = r.rows;
    let number = s.number + 1;
    // Each row has values of its own.
    let shared = RowFields {
        number,
        variables: b.variables,
        byte5,
        byte6,
        values: [0; 4],
    };
    writer::write_rows(rows, place, &words, n, shared);
    let after = state::store(number, &next_at, &next, r.held);
    state_block::store(state, s.count, after);
    n
}
