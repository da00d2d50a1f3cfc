// The pure step of an event call: a record decoded, the checks 9 to 12, the new labels and the rows in lent words. No state is stored and nothing is
// written to a row buffer here: the crate watch does that, once every check has passed.
#![tactic(auto)]

ghost use Rattle.std.specs.Prelude.{◌≡◌, true, ◌≤◌};
ghost use Rattle.meaning.specs.Limits.{argument_limit};
ghost use Rattle.record.specs.Records.{event_in, view_event};
ghost use Rattle.sound.specs.Soundness.{book_sound, state_sound};
ghost use Rattle.calls.specs.Calls.{decisions};
ghost use Rattle.transition.specs.Moves.{judgements, Decided};

use book::Book;
use calls::EventAnswer;
use packed::Words;
use record::Event;
use state::State;

// What the pure step leaves where it accepts: how many disjuncts and valuations are in the lent words.
#[derive(Clone, Copy, PartialEq, Eq)]
pub struct Stepped {
    pub held: usize,
    pub rows: usize,
}

// An event of a sound book in a sound state.
fn judged(
    book: Book,
    state: State,
    e: Event,
    next_at: &mut [u32; state::CAPACITY],
    next: &mut Words,
    out: &mut rows::Words,
) -> Result<Stepped, EventAnswer>
    requires { (book_sound book ≡ true) × (state_sound book state ≡ true) × (e.count ≤ argument_limit) }
    ensures { Decided book state (view_event e) (judgements book state (view_event e)) result
        next_at.new next.new out.new }
{
    let n = state.count;
    let mut held = [0u32; packed::WORDS];
    let mut at = [0u32; state::CAPACITY];
    state::load(state, book.variables, &mut at, &mut held);
    let r = matcher::take_event(book, book.begins, e, &at, &held, n, next_at, next, out);
    if r.free {
        return Err(EventAnswer::Unsound);
    }
    if state.number == state::EVENTS {
        return Err(EventAnswer::TooMany);
    }
    match r.held {
        Some(held) => Ok(Stepped { held, rows: r.rows }),
        None => Err(EventAnswer::NoRoom),
    }
}

// Any record with any book and state. The words of the new labels and of the rows are lent: a state by value in what is handed back would be copied
// twice more.
pub fn step(
    book: Book,
    state: State,
    bytes: &[u8],
    next_at: &mut [u32; state::CAPACITY],
    next: &mut Words,
    out: &mut rows::Words,
) -> Result<Stepped, EventAnswer>
    ensures { Decided book state (event_in bytes.now) (decisions book state bytes.now) result
        next_at.new next.new out.new }
{
    if !sound::sound_book(book) {
        return Err(EventAnswer::Unsound);
    }
    if !sound_state::sound_state(book, state) {
        return Err(EventAnswer::Unsound);
    }
    match record::decode(bytes) {
        Some(e) => judged(book, state, e, next_at, next, out),
        None => Err(EventAnswer::OutOfForm),
    }
}
