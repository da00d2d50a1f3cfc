// All new labels after an event, position by position, or no room. For `matcher`.
#![tactic(auto)]

ghost use Rattle.std.specs.Prelude.{◌≡◌, true, cond, map, ℕ, ◌≤◌, ◌<◌, take, get_or, IfSome};
ghost use Rattle.laws.specs.Sets.{Grown};
ghost use Rattle.meaning.specs.Events.{Event, constraint_of};
ghost use Rattle.meaning.specs.Book.{starting_at, sound_book, followers};
ghost use Rattle.meaning.specs.Labels.{new_held};
ghost use Rattle.meaning.specs.Room.{held_limit, room};
ghost use Rattle.meaning.specs.Sound.{sound_held};
ghost use Rattle.meaning.specs.Wide.{wide_book};
ghost use Rattle.demand.specs.Constraints.{view_constraint, no_constraint, Ready};
ghost use Rattle.book.specs.Books.{view_book};
ghost use Rattle.book.specs.Counts.{Counts};
ghost use Rattle.packed.specs.Held.{held_in, held_grown};

use book::Book;
use constraint::Constraints;
use labels::Position;
use packed::{CAPACITY, Words};

// All new labels where matches begin at the positions of `begins`, from the constraints of the book's symbols: how many disjuncts they hold,
// or None where there is no room.
pub fn advance(
    book: Book,
    begins: u32,
    cs: Constraints,
    held: &Words,
    at: &[u32; CAPACITY],
    masks: &[u32; CAPACITY],
    n: usize,
    next: &mut Words,
    next_at: &mut [u32; CAPACITY],
) -> Option<usize>
    requires { (n ≤ held_limit) × Counts book × (sound_book (starting_at begins (view_book book)) ≡ true)
        × (sound_held (wide_book (starting_at begins (view_book book))) (held_in n at.now held.now) ≡ true)
        × (take n masks.now ≡ map (followers (view_book book)) (take n at.now)) × ((i : ℕ) → i < book.symbols → IfSome (get_or cs i no_constraint) Ready) }
    ensures few { IfSome result (λ k. k ≤ held_limit) }
    ensures held { (e : Event) → map view_constraint (take book.symbols cs) ≡ map (λ s. constraint_of s e) (view_book book).symbols
        → held_grown result next_at.new next.new
        ≡ cond (room (wide_book (starting_at begins (view_book book))) (held_in n at.now held.now) e)
        (Grown.grown (new_held (wide_book (starting_at begins (view_book book))) (held_in n at.now held.now) e)) Grown.full }
{
    let mut words = [0u32; packed::WORDS];
    let mut a = [0u32; packed::WORDS];
    let mut b = [0u32; packed::WORDS];
    let mut total = 0;
    for i in 0..book.positions {
        let y = book.occurrences[i] as usize;
        let q = Position {
            number: i + 1,
            begins: piece::has(begins, i + 1),
            follows: book.follows[i],
            constraint: cs[y],
        };
        total = labels::add_label(
            held,
            at,
            masks,
            n,
            q,
            cs,
            book.symbols,
            &mut words,
            &mut a,
            &mut b,
            next,
            next_at,
            total,
        )?;
    }
    Some(total)
}
