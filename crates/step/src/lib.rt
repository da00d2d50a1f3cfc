// The step set of a position: its symbol's constraint met with the disjuncts of its sources. For the new labels and the rows.
#![tactic(auto)]

ghost use Rattle.std.specs.Prelude.{◌≡◌, true, ◌&&◌, [], ◌∷◌, map, ◌-◌, ◌≤◌, leb, take, get_or, Some, IfSome};
ghost use Rattle.laws.specs.Bits.{bit};
ghost use Rattle.laws.specs.Lists.{all};
ghost use Rattle.laws.specs.Order.{ascending};
ghost use Rattle.laws.specs.Sets.{insert_all, within};
ghost use Rattle.pattern.specs.Positions.{occurrence_limit};
ghost use Rattle.meaning.specs.Labels.{compare_disjuncts};
ghost use Rattle.meaning.specs.Room.{held_limit};
ghost use Rattle.bounded.specs.Bounded.{pick, with_start, met_list, met_set};
ghost use Rattle.demand.specs.Constraints.{view_constraint, Ready};
ghost use Rattle.disjunct.specs.Disjuncts.{view_disjunct};
ghost use Rattle.packed.specs.Sets.{disjuncts_in, grown_in};

use demand::Constraint;
use disjunct::Disjunct;
use packed::{CAPACITY, Words};
use piece::POSITIONS;

// The positions that follow each held position.
pub fn follow_masks(
    follows: [u32; POSITIONS],
    at: &[u32; CAPACITY],
    n: usize,
    masks: &mut [u32; CAPACITY],
)
    requires { (n ≤ held_limit) × (all (λ p. leb 1 p && leb p occurrence_limit) (take n at.now) ≡ true) }
    ensures { take n masks.new ≡ map (λ p. get_or follows (p - 1) 0) (take n at.now) }
{
    for i in 0..n {
        masks[i] = follows[at[i] as usize - 1];
    }
}

// d met with c, if the meeting succeeds, put among the first m.
fn add_met(out: &mut Words, m: usize, d: Disjunct, c: Constraint) -> Option<usize>
    requires { (m ≤ held_limit) × Ready c × (ascending compare_disjuncts (take m (disjuncts_in out.old)) ≡ true) }
    ensures few { IfSome result (λ k. k ≤ held_limit) }
    ensures set { grown_in result out.new ≡ within held_limit (insert_all compare_disjuncts
        (met_list (view_constraint (Some c)) (view_disjunct d ∷ [])) (take m (disjuncts_in out.old))) }
{
    match d.meet(Some(c)) {
        Ok(e) => sets::insert(out, m, e),
        Err(_) => Some(m),
    }
}

// What the start gives to the step set of a position that begins.
fn add_start(out: &mut Words, begins: bool, c: Constraint) -> usize
    requires { Ready c }
    ensures { (result ≤ held_limit) × (take result (disjuncts_in out.new) ≡ met_set (view_constraint (Some c)) (with_start begins [])) }
{
    if !begins {
        return 0;
    }
    match Disjunct::free().meet(Some(c)) {
        Ok(d) => {
            packed::put(out, 0, d);
            1
        }
        Err(_) => 0,
    }
}

// The disjuncts whose mask has q, met with c, put among the first `count`.
fn add_sources(
    held: &Words,
    masks: &[u32; CAPACITY],
    n: usize,
    q: usize,
    c: Constraint,
    out: &mut Words,
    count: usize,
) -> Option<usize>
    requires { (n ≤ held_limit) × (q ≤ occurrence_limit) × Ready c × (count ≤ held_limit)
        × (ascending compare_disjuncts (take count (disjuncts_in out.old)) ≡ true) }
    ensures few { IfSome result (λ k. k ≤ held_limit) }
    ensures set { grown_in result out.new ≡ within held_limit (insert_all compare_disjuncts (met_list (view_constraint (Some c))
        (pick (λ m. bit q m) (take n masks.now) (take n (disjuncts_in held.now)))) (take count (disjuncts_in out.old))) }
{
    let mut m = count;
    for i in 0..n {
        if piece::has(masks[i], q) {
            m = add_met(out, m, packed::get(held, i), c)?;
        }
    }
    Some(m)
}

// The step set of q: how many disjuncts it has, or None where there is no room for it.
pub fn step_set(
    held: &Words,
    masks: &[u32; CAPACITY],
    n: usize,
    q: usize,
    begins: bool,
    c: Option<Constraint>,
    out: &mut Words,
) -> Option<usize>
    requires { (n ≤ held_limit) × (q ≤ occurrence_limit) × IfSome c Ready }
    ensures few { IfSome result (λ k. k ≤ held_limit) }
    ensures set { grown_in result out.new ≡ within held_limit (met_set (view_constraint c)
        (with_start begins (pick (λ m. bit q m) (take n masks.now) (take n (disjuncts_in held.now))))) }
{
    let Some(constraint) = c else {
        return Some(0);
    };
    let m = add_start(out, begins, constraint);
    add_sources(held, masks, n, q, constraint, out, m)
}
