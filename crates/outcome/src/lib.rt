// How an event call ends, for `watch`: what it hands back refused and accepted, and whether its rows fit into the lent buffer.
#![tactic(auto)]

ghost use Rattle.std.specs.Prelude.{◌≡◌, cond, ◌+◌, ◌*◌, ◌≤◌, ◌<◌, leb, length, take};
ghost use Rattle.laws.specs.Lists.{gather};
ghost use Rattle.laws.specs.Parts.{splice};
ghost use Rattle.meaning.specs.Limits.{variable_limit};
ghost use Rattle.meaning.specs.Room.{held_limit};
ghost use Rattle.meaning.specs.Rows.{row_limit};
ghost use Rattle.meaning.specs.Sound.{event_limit};
ghost use Rattle.packed.specs.Held.{held_in};
ghost use Rattle.state.specs.States.{state_of};
ghost use Rattle.rows.specs.Valuations.{valuations_in};
ghost use Rattle.row.specs.RowBytes.{row_size, row_bytes};
ghost use Rattle.tally.specs.Tallies.{tallied};
ghost use Rattle.calls.specs.declared.EventAnswer.TheVariants.{Accepted, NoSpace};

use book::Book;
use calls::{EventAnswer, Taken};
use row::RowFields;
use rows::Words;
use state::State;
use tally::Tally;

// Refused: all as it came but the refused counter.
pub fn refused(answer: EventAnswer, book: Book, state: State, tally: Tally) -> Taken
    ensures { result ≡ record { answer = answer; rows = 0; book = book; state = state; tally = tallied tally 0 1 0 } }
{
    Taken {
        answer,
        rows: 0,
        book,
        state,
        tally: tally.added(0, 1, 0),
    }
}

// Accepted: the next state, the accepted event and its rows counted.
pub fn accepted(rows: usize, book: Book, next: State, tally: Tally) -> Taken
    ensures { result ≡ record { answer = Accepted; rows = rows; book = book; state = next; tally = tallied tally 1 0 rows } }
{
    Taken {
        answer: EventAnswer::Accepted,
        rows,
        book,
        state: next,
        tally: tally.added(1, 0, rows as u64),
    }
}

// Whether so many rows fit from the place on.
pub fn fits(size: usize, place: usize, rows: usize) -> bool
    ensures { result ≡ leb (place + row_size * rows) size }
{
    place <= size && rows <= (size - place) / writer::ROW
}

// Where nothing but the check for space is left: the rows, in words, are written and the next state, in words too, is stored and handed back, or all
// is as it came. The state is stored here, once the rows fit, as a state that goes through a call by value is copied there.
pub fn settled(
    book: Book,
    state: State,
    next_at: &[u32; state::CAPACITY],
    next: &packed::Words,
    held: usize,
    words: &Words,
    n: usize,
    rows: &mut [u8],
    place: usize,
    tally: Tally,
) -> Taken
    requires { (book.variables ≤ variable_limit) × (n ≤ row_limit) × (held ≤ held_limit) × (state.number < event_limit) }
    ensures { (result ≡ cond (leb (place + row_size * n) (length rows.old))
        (record {
          answer = Accepted;
          rows = n;
          book = book;
          state = state_of (record { number = state.number + 1; held = held_in held next_at.now next.now });
          tally = tallied tally 1 0 n;
        })
        (record { answer = NoSpace; rows = 0; book = book; state = state; tally = tallied tally 0 1 0 }))
        × (rows.new ≡ cond (leb (place + row_size * n) (length rows.old))
        (splice place (gather (row_bytes (state.number + 1) book.variables) (take n (valuations_in words.now))) rows.old)
        rows.old) }
{
    if !fits(rows.len(), place, n) {
        return refused(EventAnswer::NoSpace, book, state, tally);
    }
    let number = state.number + 1;
    // Bytes 5 and 6 are zero, and each row has values of its own.
    let shared = RowFields {
        number,
        variables: book.variables,
        byte5: 0,
        byte6: 0,
        values: [0; 4],
    };
    writer::write_rows(rows, place, words, n, shared);
    let after = state::store(number, next_at, next, held);
    accepted(n, book, after, tally)
}
