// A set of disjuncts in lent words, ascending and once each: one put in its place, one set put among another. For the sets that one event
// makes.
#![tactic(auto)]

ghost use Rattle.std.specs.Prelude.{◌≡◌, true, ◌++◌, ◌+◌, ◌≤◌, IfSome, take};
ghost use Rattle.laws.specs.Order.{ascending};
ghost use Rattle.laws.specs.Sets.{insert, insert_all, within};
ghost use Rattle.meaning.specs.Labels as Labels;
ghost use Rattle.meaning.specs.Labels.{compare_disjuncts};
ghost use Rattle.automaton.proofs.Orders.{disjunct_order};
ghost use Rattle.packed.proofs.Sets.{in_length};
ghost use Rattle.meaning.specs.Room.{held_limit};
ghost use Rattle.disjunct.specs.Disjuncts.{view_disjunct};
ghost use Rattle.packed.specs.Sets.{disjuncts_in, grown_in};

use disjunct::Disjunct;
use packed::{CAPACITY, Words};
use places::Places;
use slot::Order;

// Disjuncts in lent words, in the order of sets.
struct Disjuncts;

impl Places for Disjuncts {
    type Words = Words;

    type Element = Disjunct;

    const LIMIT: usize = CAPACITY;

    ghost Item = { Labels.Disjunct };

    ghost order = { compare_disjuncts };

    ghost view = { view_disjunct };

    ghost list = { disjuncts_in };

    ghost LIMIT = { held_limit };

    ghost is_order = { disjunct_order };

    ghost is_long = { in_length };

    fn get(words: &Words, i: usize) -> Disjunct {
        packed::get(words, i)
    }

    fn put(words: &mut Words, i: usize, d: Disjunct) {
        packed::put(words, i, d);
    }

    fn compare(d: Disjunct, e: Disjunct) -> Order {
        ordering::order(d, e)
    }
}

// d among the first n, in its place: how many there are then, or None where there is no room for one more.
pub fn insert(words: &mut Words, n: usize, d: Disjunct) -> Option<usize>
    requires { (n ≤ held_limit) × (ascending compare_disjuncts (take n (disjuncts_in words.old)) ≡ true) }
    ensures few { IfSome result (λ m. m ≤ held_limit) }
    ensures set { grown_in result words.new ≡ within held_limit
        (insert compare_disjuncts (view_disjunct d) (take n (disjuncts_in words.old))) }
{
    places::insert::<Disjuncts>(words, n, d)
}

// The first n disjuncts of one set written behind the first `at` of another.
pub fn append(from: &Words, n: usize, words: &mut Words, at: usize)
    requires { at + n ≤ held_limit }
    ensures { take (at + n) (disjuncts_in words.new)
        ≡ take at (disjuncts_in words.old) ++ take n (disjuncts_in from.now) }
{
    for i in 0..n {
        packed::put(words, at + i, packed::get(from, i));
    }
}

// The first k disjuncts of one set put among the first m of another.
pub fn join(words: &mut Words, m: usize, from: &Words, k: usize) -> Option<usize>
    requires { (m ≤ held_limit) × (k ≤ held_limit) × (ascending compare_disjuncts (take m (disjuncts_in words.old)) ≡ true) }
    ensures few { IfSome result (λ n. n ≤ held_limit) }
    ensures set { grown_in result words.new ≡ within held_limit
        (insert_all compare_disjuncts (take k (disjuncts_in from.now)) (take m (disjuncts_in words.old))) }
{
    let mut n = m;
    for i in 0..k {
        n = insert(words, n, packed::get(from, i))?;
    }
    Some(n)
}
