// The watch: the public calls. A book is read, a state is started afresh, and every event is taken as it comes.
#![tactic(auto)]

ghost use Rattle.std.specs.Prelude.{◌≡◌, true};
ghost use Rattle.form.specs.Text.{is_bytes};
ghost use Rattle.calls.specs.Calls.{fresh_state, taken, buffer_after};

pub use answers::{number_of, place_of};
use book::Book;
pub use calls::{EventAnswer, Taken};
pub use reader::{name, name_place, read};
use state::State;
use tally::Tally;

// "A fresh state has all 128 disjunct places free and event number 0."
pub fn fresh() -> State
    ensures { result ≡ fresh_state }
{
    state::vacant(0)
}

// One event call. The pure step makes the checks 9 to 12, then 13 is made; until all have passed nothing changes but the refused counter.
pub fn event(
    book: Book,
    state: State,
    bytes: &[u8],
    rows: &mut [u8],
    place: usize,
    tally: Tally,
) -> Taken
    ensures { (result ≡ taken book state bytes.now rows.old place tally)
        × (rows.new ≡ buffer_after book state bytes.now rows.old place)
        × (is_bytes bytes.now ≡ true) }
{
    let mut words = [0u32; rows::WORDS];
    let mut next_at = [0u32; state::CAPACITY];
    let mut next = [0u32; packed::WORDS];
    match transition::step(book, state, bytes, &mut next_at, &mut next, &mut words) {
        Ok(s) => outcome::settled(
            book, state, &next_at, &next, s.held, &words, s.rows, rows, place, tally,
        ),
        Err(answer) => outcome::refused(answer, book, state, tally),
    }
}
