// The pure step of an event over lent words: its rows, with the test for a row that would leave a variable free, and then the new labels. It knows
// no state, no record and no answer. For `transition`.
#![tactic(auto)]

ghost use Rattle.std.specs.Prelude.{◌≡◌, true, ◌≤◌};
ghost use Rattle.meaning.specs.Book.{starting_at, sound_book};
ghost use Rattle.meaning.specs.Room.{held_limit};
ghost use Rattle.meaning.specs.Limits.{argument_limit};
ghost use Rattle.record.specs.Records.{view_event};
ghost use Rattle.book.specs.Books.{view_book};
ghost use Rattle.sound.specs.Soundness.{book_sound};
ghost use Rattle.matcher.specs.Effects.{Holding, Effects};

use book::Book;
use packed::{CAPACITY, Words};
use record::Event;

// What an event does: whether a row would leave a variable free; how many disjuncts the new labels hold, or None where there is no room for them;
// how many rows.
#[derive(Clone, Copy, PartialEq, Eq)]
pub struct Effect {
    pub free: bool,
    pub held: Option<usize>,
    pub rows: usize,
}

// An event taken by a sound book whose matches begin at the positions of `begins`, with what the first n of the lent words hold: the new labels
// go into `next_at` and `next`, the valuations of the rows into `out`.
pub fn take_event(
    book: Book,
    begins: u32,
    e: Event,
    at: &[u32; CAPACITY],
    held: &Words,
    n: usize,
    next_at: &mut [u32; CAPACITY],
    next: &mut Words,
    out: &mut rows::Words,
) -> Effect
    requires { (book_sound book ≡ true) × (sound_book (starting_at begins (view_book book)) ≡ true) × (e.count ≤ argument_limit)
        × (n ≤ held_limit) × Holding (starting_at begins (view_book book)) n at.now held.now }
    ensures { (h : Holding (starting_at begins (view_book book)) n at.now held.now)
        → Effects (starting_at begins (view_book book)) h.plain (view_event e) result next_at.new next.new out.new }
{
    let cs = constraint::constraints(book.table, book.symbols, e);
    let mut masks = [0u32; CAPACITY];
    step::follow_masks(book.follows, at, n, &mut masks);
    let found = collect::collect(book, begins, cs, held, at, &masks, n, out);
    let after = advance::advance(book, begins, cs, held, at, &masks, n, next, next_at);
    Effect {
        free: found.free,
        held: after,
        // There is room for the rows of a sound book.
        rows: found.rows.unwrap(),
    }
}
