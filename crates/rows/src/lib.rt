// Valuations in lent words, four to each, ascending and once each. For the rows of an event.
#![tactic(auto)]

ghost use Rattle.std.specs.Prelude.{◌≡◌, true, [], ◌≤◌, ◌<◌, IfSome, take, drop, get_or};
ghost use Rattle.laws.specs.Order.{ascending};
ghost use Rattle.laws.specs.Sets.{insert, within};
ghost use Rattle.laws.proofs.Order.{compare_order, lex_order};
ghost use Rattle.meaning.specs.Events as Events;
ghost use Rattle.meaning.specs.Rows.{row_limit, compare_valuations};
ghost use Rattle.meaning.specs.Limits.{variable_limit};
ghost use Rattle.slot.specs.Slots.{rank};
ghost use Rattle.rows.specs.Valuations.{valuations_in, rows_grown, valuations_long};

use places::Places;
use slot::Order;

// A value for each variable, zero beyond the book's.
pub const VALUES: usize = 4;

pub type Valuation = [u32; VALUES];

// "an event has at most 16 × 129 rows"
pub const ROWS: usize = 16 * 129;

pub const WORDS: usize = ROWS * VALUES;

pub type Words = [u32; WORDS];

// The values from variable k on compared: the first that differs decides. It calls itself on the variables left.
pub fn compare(a: Valuation, b: Valuation, k: usize) -> Order
    requires { k ≤ variable_limit }
    ensures { result ≡ rank (compare_valuations (drop k a) (drop k b)) }
{
    if k == VALUES {
        return Order::Same;
    }
    if a[k] < b[k] {
        return Order::Before;
    }
    if b[k] < a[k] {
        return Order::After;
    }
    compare(a, b, k + 1)
}

// The i-th valuation.
pub fn get(words: &Words, i: usize) -> Valuation
    requires { i < row_limit }
    ensures { result ≡ get_or (valuations_in words.now) i [] }
{
    let mut x = [0; VALUES];
    x.copy_from_slice(&words[i * VALUES..(i + 1) * VALUES]);
    x
}

// Valuations in lent words, in the order of rows.
struct EventRows;

impl Places for EventRows {
    type Words = Words;

    type Element = Valuation;

    const LIMIT: usize = ROWS;

    ghost Item = { Events.Valuation };

    ghost order = { compare_valuations };

    ghost view = { λ x. x };

    ghost list = { valuations_in };

    ghost LIMIT = { row_limit };

    ghost is_order = { lex_order compare_order };

    ghost is_long = { valuations_long };

    fn get(words: &Words, i: usize) -> Valuation {
        get(words, i)
    }

    fn put(words: &mut Words, i: usize, x: Valuation) {
        words[i * VALUES..(i + 1) * VALUES].copy_from_slice(&x);
    }

    fn compare(x: Valuation, y: Valuation) -> Order {
        compare(x, y, 0)
    }
}

// x among the first n, in its place: how many there are then, or None where there is no room for one more.
pub fn insert_row(words: &mut Words, n: usize, x: Valuation) -> Option<usize>
    requires { (n ≤ row_limit) × (ascending compare_valuations (take n (valuations_in words.old)) ≡ true) }
    ensures few { IfSome result (λ m. m ≤ row_limit) }
    ensures set { rows_grown result words.new ≡ within row_limit (insert compare_valuations x (take n (valuations_in words.old))) }
{
    places::insert::<EventRows>(words, n, x)
}
