// The rows of an event collected from the sources of its ending positions, and on the way the test for a row that would leave a variable free.
// For `matcher`.
#![tactic(auto)]

ghost use Rattle.std.specs.Prelude.{◌≡◌, true, cond, ◌||◌, [], ◌∷◌, map, ℕ, ◌≤◌, ◌<◌, take, get_or, Some, IfSome};
ghost use Rattle.laws.specs.Bits.{bit};
ghost use Rattle.laws.specs.Sets.{within, grow};
ghost use Rattle.pattern.specs.Positions.{occurrence_limit};
ghost use Rattle.meaning.specs.Events.{Event, constraint_of};
ghost use Rattle.meaning.specs.Book.{starting_at, sound_book, followers};
ghost use Rattle.meaning.specs.Room.{held_limit};
ghost use Rattle.meaning.specs.Rows.{row_limit, compare_valuations, rows};
ghost use Rattle.meaning.specs.Limits.{variable_limit};
ghost use Rattle.meaning.specs.Wide.{wide_book};
ghost use Rattle.bounded.specs.Bounded.{pick, with_start, free_rows, rows_ascend, yield_with};
ghost use Rattle.demand.specs.Constraints.{view_constraint, no_constraint, Ready};
ghost use Rattle.disjunct.specs.Disjuncts.{view_disjunct};
ghost use Rattle.packed.specs.Sets.{disjuncts_in};
ghost use Rattle.book.specs.Books.{view_book};
ghost use Rattle.book.specs.Counts.{Counts};
ghost use Rattle.packed.specs.Held.{held_in};
ghost use Rattle.rows.specs.Valuations.{rows_grown};
ghost use Rattle.collect.specs.Yields.{yield_in};

use book::Book;
use constraint::Constraints;
use demand::Constraint;
use disjunct::Disjunct;
use packed::{CAPACITY, Words};
use rows::Valuation;

// What is collected so far: how many rows stand in the lent words, or None where there was no room; and whether a meeting left a variable free.
#[derive(Clone, Copy, PartialEq, Eq)]
pub struct Collected {
    pub rows: Option<usize>,
    pub free: bool,
}

fn either(a: bool, b: bool) -> bool
    ensures { result ≡ (a || b) }
{
    a || b
}

// The row x put among those before. Once there is no room there is none for good.
fn insert_row(out: &mut rows::Words, before: Option<usize>, x: Valuation) -> Option<usize>
    requires { IfSome before (λ m. m ≤ row_limit) × (rows_ascend (rows_grown before out.old) ≡ true) }
    ensures few { IfSome result (λ m. m ≤ row_limit) }
    ensures set { rows_grown result out.new ≡ grow compare_valuations row_limit x (rows_grown before out.old) }
{
    match before {
        Some(m) => rows::insert_row(out, m, x),
        None => None,
    }
}

// The meeting of d with c, where the first v variables count.
fn add_met(
    out: &mut rows::Words,
    found: Collected,
    d: Disjunct,
    c: Constraint,
    v: usize,
) -> Collected
    requires { (v ≤ variable_limit) × Ready c × IfSome found.rows (λ m. m ≤ row_limit)
        × (rows_ascend (rows_grown found.rows out.old) ≡ true) }
    ensures few { IfSome result.rows (λ m. m ≤ row_limit) }
    ensures gives { yield_in result out.new ≡ yield_with v (view_constraint (Some c)) (view_disjunct d ∷ []) (yield_in found out.old) }
{
    match d.meet(Some(c)) {
        Ok(e) => {
            let free = either(found.free, e.leaves_free(v));
            let rows = insert_row(out, found.rows, e.values());
            Collected { rows, free }
        }
        Err(_) => found,
    }
}

// The same for the start's label, if the position begins.
fn add_start(
    out: &mut rows::Words,
    found: Collected,
    begins: bool,
    c: Constraint,
    v: usize,
) -> Collected
    requires { (v ≤ variable_limit) × Ready c × IfSome found.rows (λ m. m ≤ row_limit)
        × (rows_ascend (rows_grown found.rows out.old) ≡ true) }
    ensures few { IfSome result.rows (λ m. m ≤ row_limit) }
    ensures gives { yield_in result out.new ≡ yield_with v (view_constraint (Some c)) (with_start begins []) (yield_in found out.old) }
{
    if begins {
        add_met(out, found, Disjunct::free(), c, v)
    } else {
        found
    }
}

// The same for the held disjuncts whose mask has q.
fn add_sources(
    held: &Words,
    masks: &[u32; CAPACITY],
    n: usize,
    q: usize,
    c: Constraint,
    v: usize,
    out: &mut rows::Words,
    found: Collected,
) -> Collected
    requires { (n ≤ held_limit) × (q ≤ occurrence_limit) × (v ≤ variable_limit) × Ready c
        × IfSome found.rows (λ m. m ≤ row_limit) × (rows_ascend (rows_grown found.rows out.old) ≡ true) }
    ensures few { IfSome result.rows (λ m. m ≤ row_limit) }
    ensures gives { yield_in result out.new ≡ yield_with v (view_constraint (Some c))
        (pick (λ x. bit q x) (take n masks.now) (take n (disjuncts_in held.now))) (yield_in found out.old) }
{
    let mut r = found;
    for i in 0..n {
        if piece::has(masks[i], q) {
            r = add_met(out, r, packed::get(held, i), c, v);
        }
    }
    r
}

// The same for all sources of any position q: nothing where it does not end a word. A false constraint gives nothing either.
fn add_position(
    held: &Words,
    masks: &[u32; CAPACITY],
    n: usize,
    q: usize,
    begins: u32,
    ends: u32,
    c: Option<Constraint>,
    v: usize,
    out: &mut rows::Words,
    found: Collected,
) -> Collected
    requires { (n ≤ held_limit) × (q ≤ occurrence_limit) × (v ≤ variable_limit) × IfSome c Ready
        × IfSome found.rows (λ m. m ≤ row_limit) × (rows_ascend (rows_grown found.rows out.old) ≡ true) }
    ensures few { IfSome result.rows (λ m. m ≤ row_limit) }
    ensures gives { yield_in result out.new ≡ yield_with v (view_constraint c)
        (cond (bit q ends) (with_start (bit q begins) (pick (λ x. bit q x) (take n masks.now) (take n (disjuncts_in held.now)))) [])
        (yield_in found out.old) }
{
    let Some(constraint) = c else {
        return found;
    };
    if !piece::has(ends, q) {
        return found;
    }
    let started = add_start(out, found, piece::has(begins, q), constraint, v);
    add_sources(held, masks, n, q, constraint, v, out, started)
}

// The rows of an event whose matches begin at the positions of `begins`, from the constraints of the book's symbols: how many, or None where there is no room; and
// "a row that would leave a variable free", disjunct by disjunct.
pub fn collect(
    book: Book,
    begins: u32,
    cs: Constraints,
    held: &Words,
    at: &[u32; CAPACITY],
    masks: &[u32; CAPACITY],
    n: usize,
    out: &mut rows::Words,
) -> Collected
    requires { (n ≤ held_limit) × Counts book × (sound_book (starting_at begins (view_book book)) ≡ true)
        × (take n masks.now ≡ map (followers (view_book book)) (take n at.now)) × ((i : ℕ) → i < book.symbols → IfSome (get_or cs i no_constraint) Ready) }
    ensures few { IfSome result.rows (λ m. m ≤ row_limit) }
    ensures found { (e : Event) → map view_constraint (take book.symbols cs) ≡ map (λ s. constraint_of s e) (view_book book).symbols
        → (rows_grown result.rows out.new
        ≡ within row_limit (rows (wide_book (starting_at begins (view_book book))) (held_in n at.now held.now) e))
        × (result.free ≡ free_rows book.variables (wide_book (starting_at begins (view_book book))) (held_in n at.now held.now) e) }
{
    let mut r = Collected {
        rows: Some(0),
        free: false,
    };
    for i in 0..book.positions {
        let y = book.occurrences[i] as usize;
        r = add_position(
            held,
            masks,
            n,
            i + 1,
            begins,
            book.ends,
            cs[y],
            book.variables,
            out,
            r,
        );
    }
    r
}
