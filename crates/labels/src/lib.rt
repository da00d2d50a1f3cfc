// The new label of one position after an event, and all that are held with it, or no room. For `advance`, which goes over the positions.
#![tactic(auto)]

ghost use Rattle.std.specs.Prelude.{◌≡◌, true, not, map, ℕ, ◌≤◌, ◌<◌, eqb, take, get_or, IfSome};
ghost use Rattle.laws.specs.Order.{ascending};
ghost use Rattle.laws.specs.Sets.{Grown};
ghost use Rattle.pattern.specs.Positions.{occurrence_limit};
ghost use Rattle.meaning.specs.Labels.{compare_disjuncts};
ghost use Rattle.meaning.specs.Room.{held_limit};
ghost use Rattle.meaning.specs.Limits.{symbol_limit};
ghost use Rattle.bounded.specs.Bounded.{pick, labelled, appended};
ghost use Rattle.demand.specs.Constraints.{view_constraint, no_constraint, Ready};
ghost use Rattle.packed.specs.Sets.{disjuncts_in, grown_in};
ghost use Rattle.packed.specs.Held.{held_in, held_grown};

use constraint::Constraints;
use demand::Constraint;
use packed::{CAPACITY, Words};

// What one position has: its number, whether it begins, what follows it, and its symbol's constraint.
#[derive(Clone, Copy)]
pub struct Position {
    pub number: usize,
    pub begins: bool,
    pub follows: u32,
    pub constraint: Option<Constraint>,
}

// The new label of one position in `words`, or None where there is no room. `a` and `b` are for the work between.
fn new_label(
    held: &Words,
    at: &[u32; CAPACITY],
    masks: &[u32; CAPACITY],
    n: usize,
    q: Position,
    cs: Constraints,
    count: usize,
    words: &mut Words,
    a: &mut Words,
    b: &mut Words,
) -> Option<usize>
    requires { (n ≤ held_limit) × (count ≤ symbol_limit) × (q.number ≤ occurrence_limit) × IfSome q.constraint Ready
        × ((i : ℕ) → i < count → IfSome (get_or cs i no_constraint) Ready)
        × (ascending compare_disjuncts (pick (eqb q.number) (take n at.now) (take n (disjuncts_in held.now))) ≡ true) }
    ensures few { IfSome result (λ k. k ≤ held_limit) }
    ensures set { grown_in result words.new ≡ labelled (view_constraint q.constraint) (map view_constraint (take count cs)) q.begins
        (not (eqb q.follows 0)) q.number (take n at.now) (take n masks.now) (take n (disjuncts_in held.now)) }
{
    let m = step::step_set(held, masks, n, q.number, q.begins, q.constraint, words)?;
    let k = skip::label(held, at, n, q.number as u32, a);
    let j = skip::skip_through(a, b, k, cs, count)?;
    if q.follows == 0 {
        return Some(0);
    }
    sets::join(words, m, a, j)
}

// The label of position p behind what is held so far, or None where there is no room.
fn append_label(
    label: &Words,
    m: usize,
    p: u32,
    next: &mut Words,
    next_at: &mut [u32; CAPACITY],
    total: usize,
) -> Option<usize>
    requires { (m ≤ held_limit) × (total ≤ held_limit) }
    ensures few { IfSome result (λ k. k ≤ held_limit) }
    ensures held { held_grown result next_at.new next.new ≡ appended p
        (held_in total next_at.old next.old) (Grown.grown (take m (disjuncts_in label.now))) }
{
    if CAPACITY < total + m {
        return None;
    }
    sets::append(label, m, next, total);
    next_at[total..total + m].fill(p);
    Some(total + m)
}

// The new label of one position behind what is held so far, or None where there is no room.
pub fn add_label(
    held: &Words,
    at: &[u32; CAPACITY],
    masks: &[u32; CAPACITY],
    n: usize,
    q: Position,
    cs: Constraints,
    count: usize,
    words: &mut Words,
    a: &mut Words,
    b: &mut Words,
    next: &mut Words,
    next_at: &mut [u32; CAPACITY],
    total: usize,
) -> Option<usize>
    requires { (n ≤ held_limit) × (count ≤ symbol_limit) × (q.number ≤ occurrence_limit) × IfSome q.constraint Ready
        × ((i : ℕ) → i < count → IfSome (get_or cs i no_constraint) Ready)
        × (ascending compare_disjuncts (pick (eqb q.number) (take n at.now) (take n (disjuncts_in held.now))) ≡ true) × (total ≤ held_limit) }
    ensures few { IfSome result (λ k. k ≤ held_limit) }
    ensures held { held_grown result next_at.new next.new ≡ appended q.number
        (held_in total next_at.old next.old)
        (labelled (view_constraint q.constraint) (map view_constraint (take count cs)) q.begins
        (not (eqb q.follows 0)) q.number (take n at.now) (take n masks.now) (take n (disjuncts_in held.now))) }
{
    let m = new_label(held, at, masks, n, q, cs, count, words, a, b)?;
    append_label(words, m, q.number as u32, next, next_at, total)
}
