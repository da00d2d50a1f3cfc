// A set kept in the first places of lent words, ascending and once each: one element put in its place. Written and proved once, for the
// sets of disjuncts and for the rows of an event.
#![tactic(auto)]

ghost use Rattle.std.specs.Prelude.{◌≡◌, true, ◌∷◌, ◌++◌, List, ℕ, suc, ◌+◌, ◌≤◌, ◌<◌, IfOk, IfErr, IfSome, length, take, drop, get_or, set};
ghost use Prim.Native.Nat.{Ordering};
ghost use Rattle.laws.specs.Order.{IsOrder, ascending};
ghost use Rattle.laws.specs.Sets.{insert, within};
ghost use Rattle.slot.specs.Slots.{rank};
ghost use Rattle.places.specs.Counts.{grown_of};

use slot::Order;

// How words are read as elements in order, so many as LIMIT.
pub trait Places {
    type Words;

    type Element: Copy;

    const LIMIT: usize;

    // what an element says, however code holds it; and the elements that words say
    ghost Item: { Type 0 };

    ghost order: { Item → Item → Ordering };

    ghost view: { Self.Element → Item };

    ghost list: { Self.Words → List Item };

    ghost LIMIT: { ℕ };

    fn get(words: &Self::Words, i: usize) -> Self::Element
        requires { i < LIMIT }
        ensures { (d : Item) → view result ≡ get_or (list words.now) i d };

    fn put(words: &mut Self::Words, i: usize, x: Self::Element)
        requires { i < LIMIT }
        ensures { list words.new ≡ set (list words.old) i (view x) };

    fn compare(x: Self::Element, y: Self::Element) -> Order
        ensures { result ≡ rank (order (view x) (view y)) };

    ghost is_order: { IsOrder order };

    ghost is_long: { (w : Self.Words) → length (list w) ≡ LIMIT };
}

// Where x stands among the first n (Ok), or where it would go (Err). Looks from the end, where most new elements go.
fn insertion_point<P: Places>(words: &P::Words, n: usize, x: P::Element) -> Result<usize, usize>
    requires { (n ≤ P.LIMIT) × (ascending P.order (take n (P.list words.now)) ≡ true) }
    ensures found { IfOk result (λ k. (k < n) × ((d : P.Item) → get_or (P.list words.now) k d ≡ P.view x)
        × (insert P.order (P.view x) (take n (P.list words.now)) ≡ take n (P.list words.now))) }
    ensures place { IfErr result (λ k. (k ≤ n) × (insert P.order (P.view x) (take n (P.list words.now))
        ≡ take k (take n (P.list words.now)) ++ P.view x ∷ drop k (take n (P.list words.now)))) }
{
    for i in (0..n).rev() {
        match P::compare(x, P::get(words, i)) {
            Order::Before => {}
            Order::Same => return Ok(i),
            Order::After => return Err(i + 1),
        }
    }
    Err(0)
}

// Room for one more at k: the elements from k to n - 1 moved up by one.
fn shift<P: Places>(words: &mut P::Words, n: usize, k: usize)
    requires { (k ≤ n) × (n < P.LIMIT) }
    ensures { (take k (P.list words.new) ≡ take k (P.list words.old))
        × (drop (suc k) (take (suc n) (P.list words.new)) ≡ drop k (take n (P.list words.old))) }
{
    for i in (k..n).rev() {
        P::put(words, i + 1, P::get(words, i));
    }
}

// x among the first n, in its place: how many there are then, or None where there is no room for one more.
pub fn insert<P: Places>(words: &mut P::Words, n: usize, x: P::Element) -> Option<usize>
    requires { (n ≤ P.LIMIT) × (ascending P.order (take n (P.list words.old)) ≡ true) }
    ensures few { IfSome result (λ m. m ≤ P.LIMIT) }
    ensures set { grown_of result (P.list words.new) ≡ within P.LIMIT (insert P.order (P.view x) (take n (P.list words.old))) }
{
    let Err(at) = insertion_point::<P>(words, n, x) else {
        return Some(n);
    };
    if n == P::LIMIT {
        return None;
    }
    shift::<P>(words, n, at);
    P::put(words, at, x);
    Some(n + 1)
}
