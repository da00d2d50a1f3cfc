// The event call with the tally lent: "is lent to each call that counts and changed there". Over the by-value call of the crate watch.
#![tactic(auto)]

ghost use Rattle.std.specs.Prelude.{◌≡◌, true};
ghost use Rattle.form.specs.Text.{is_bytes};
ghost use Rattle.calls.specs.Calls.{taken, buffer_after};
ghost use Rattle.counted.specs.Given.{given_of};

use book::Book;
use calls::{EventAnswer, Taken};
use state::State;
use tally::Tally;

// What an event call hands back beside the lent tally: the answer, the count of rows, and book and state as they are then.
#[derive(Clone, Copy)]
pub struct Given {
    pub answer: EventAnswer,
    pub rows: usize,
    pub book: Book,
    pub state: State,
}

// All that a call hands back but the tally.
fn beside_tally(t: Taken) -> Given
    ensures { result ≡ given_of t }
{
    Given {
        answer: t.answer,
        rows: t.rows,
        book: t.book,
        state: t.state,
    }
}

// One event call; the lent tally is changed as the by-value call changes its own.
pub fn event(
    book: Book,
    state: State,
    bytes: &[u8],
    rows: &mut [u8],
    place: usize,
    tally: &mut Tally,
) -> Given
    ensures { (result ≡ given_of (taken book state bytes.now rows.old place tally.old))
        × (rows.new ≡ buffer_after book state bytes.now rows.old place)
        × (tally.new ≡ (taken book state bytes.now rows.old place tally.old).tally)
        × (is_bytes bytes.now ≡ true) }
{
    let t = watch::event(book, state, bytes, rows, place, *tally);
    *tally = t.tally;
    beside_tally(t)
}
