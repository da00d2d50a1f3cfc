// The skip set of a position: its old label taken through all symbols in declaration order. For the new labels.
#![tactic(auto)]

ghost use Rattle.std.specs.Prelude.{◌≡◌, true, map, ℕ, ◌≤◌, ◌<◌, eqb, take, get_or, Some, IfSome};
ghost use Rattle.laws.specs.Lists.{keep};
ghost use Rattle.laws.specs.Order.{ascending};
ghost use Rattle.laws.specs.Sets.{Grown};
ghost use Rattle.meaning.specs.Labels.{entry_of, is_free, exclude, compare_disjuncts, skip_one};
ghost use Rattle.meaning.specs.Room.{held_limit, few_exclusions};
ghost use Rattle.meaning.specs.Limits.{symbol_limit};
ghost use Rattle.bounded.specs.Bounded.{pick, grow_few, skipped, skipped_through};
ghost use Rattle.demand.specs.Constraints.{view_constraint, demands_in, no_constraint, Ready};
ghost use Rattle.disjunct.specs.Disjuncts.{view_disjunct};
ghost use Rattle.packed.specs.Sets.{disjuncts_in, grown_in};

use constraint::Constraints;
use demand::Constraint;
use disjunct::Disjunct;
use packed::{CAPACITY, Words};

// The label of position p.
pub fn label(held: &Words, at: &[u32; CAPACITY], n: usize, p: u32, out: &mut Words) -> usize
    requires { n ≤ held_limit }
    ensures { (result ≤ n) × (take result (disjuncts_in out.new) ≡ pick (eqb p) (take n at.now) (take n (disjuncts_in held.now))) }
{
    let mut m = 0;
    for i in 0..n {
        if at[i] == p {
            packed::put(out, m, packed::get(held, i));
            m += 1;
        }
    }
    m
}

// What d gives for c's demands, put among the first `count`: d with the value excluded, for each whose variable is free in d.
fn exclude_each(d: Disjunct, c: Constraint, out: &mut Words, count: usize) -> Option<usize>
    requires { (count ≤ held_limit) × Ready c × (few_exclusions (view_disjunct d) ≡ true)
        × (ascending compare_disjuncts (take count (disjuncts_in out.old)) ≡ true) }
    ensures few { IfSome result (λ k. k ≤ held_limit) }
    ensures set { grown_in result out.new ≡ grow_few (map (exclude (view_disjunct d))
        (keep (λ x. is_free (entry_of (view_disjunct d) x.variable)) (demands_in c))) (Grown.grown (take count (disjuncts_in out.old))) }
{
    let mut m = count;
    for i in 0..c.count {
        let x = c.demands[i];
        let v = x.variable as usize;
        if d.is_free(v) {
            let Ok(e) = d.exclude(v, x.value) else {
                return None;
            };
            m = sets::insert(out, m, e)?;
        }
    }
    Some(m)
}

// What d gives past c: d itself where they do not meet; else one disjunct for each variable of c free in d.
fn skip_one(d: Disjunct, c: Option<Constraint>, out: &mut Words, m: usize) -> Option<usize>
    requires { (m ≤ held_limit) × IfSome c Ready × (few_exclusions (view_disjunct d) ≡ true) × (ascending compare_disjuncts (take m (disjuncts_in out.old)) ≡ true) }
    ensures few { IfSome result (λ k. k ≤ held_limit) }
    ensures set { grown_in result out.new ≡ grow_few (skip_one (view_constraint c) (view_disjunct d))
        (Grown.grown (take m (disjuncts_in out.old))) }
{
    let Some(constraint) = c else {
        return sets::insert(out, m, d);
    };
    match d.meet(c) {
        Ok(_) => exclude_each(d, constraint, out, m),
        Err(_) => sets::insert(out, m, d),
    }
}

// A set past one symbol.
pub fn skip_by(from: &Words, n: usize, c: Option<Constraint>, out: &mut Words) -> Option<usize>
    requires { (n ≤ held_limit) × IfSome c Ready }
    ensures few { IfSome result (λ k. k ≤ held_limit) }
    ensures set { grown_in result out.new ≡ skipped (view_constraint c) (take n (disjuncts_in from.now)) }
{
    let mut m = 0;
    for i in 0..n {
        m = skip_one(packed::get(from, i), c, out, m)?;
    }
    Some(m)
}

// The first n disjuncts of `words` past the first `count` constraints; `other` is for the work between. A false constraint costs nothing.
pub fn skip_through(
    words: &mut Words,
    other: &mut Words,
    n: usize,
    cs: Constraints,
    count: usize,
) -> Option<usize>
    requires { (n ≤ held_limit) × (count ≤ symbol_limit) × (ascending compare_disjuncts (take n (disjuncts_in words.old)) ≡ true)
        × ((i : ℕ) → i < count → IfSome (get_or cs i no_constraint) Ready) }
    ensures few { IfSome result (λ k. k ≤ held_limit) }
    ensures set { grown_in result words.new ≡ skipped_through (map view_constraint (take count cs)) (take n (disjuncts_in words.old)) }
{
    let mut m = n;
    for symbol in 0..count {
        if let Some(c) = cs[symbol] {
            m = skip_by(words, m, Some(c), other)?;
            sets::append(other, m, words, 0);
        }
    }
    Some(m)
}
