// The order of disjuncts: by values, then by exclusion lists; first of what two of them say of one variable. For the matcher's sets.
#![tactic(auto)]

ghost use Rattle.std.specs.Prelude.{◌≡◌, map};
ghost use Prim.Native.Nat.{compare};
ghost use Rattle.laws.specs.Order.{lex};
ghost use Rattle.meaning.specs.Labels as Labels;
ghost use Rattle.slot.specs.Slots.{view_slot, rank};
ghost use Rattle.disjunct.specs.Disjuncts.{view_disjunct};

use disjunct::Disjunct;
use slot::{Order, Slot};

// 0 for a free variable, one more than its value for a bound one: the order of values.
fn key(a: &Slot) -> u64
    ensures { result ≡ Labels.value_key (view_slot a.now) }
{
    if a.bound { u64::from(a.value) + 1 } else { 0 }
}

// Values compared, a free variable before any value.
fn slot_values(a: &Slot, b: &Slot) -> Order
    ensures { result ≡ rank (compare (Labels.value_key (view_slot a.now)) (Labels.value_key (view_slot b.now))) }
{
    Order::of(key(a), key(b))
}

// Exclusion lists compared, a list before any that it begins.
fn slot_exclusions(a: &Slot, b: &Slot) -> Order
    ensures { result ≡ rank (lex compare (Labels.exclusions (view_slot a.now)) (Labels.exclusions (view_slot b.now))) }
{
    let m = a.size();
    let n = b.size();
    for i in 0..m.min(n) {
        match Order::of(u64::from(a.excluded[i]), u64::from(b.excluded[i])) {
            Order::Same => {}
            decided => return decided,
        }
    }
    Order::of(m as u64, n as u64)
}

// By values, a free variable before any value.
fn values(a: Disjunct, b: Disjunct) -> Order
    ensures { result ≡ rank (lex compare (map Labels.value_key (view_disjunct a)) (map Labels.value_key (view_disjunct b))) }
{
    for i in 0..Disjunct::VARIABLES {
        match slot_values(&a.vars[i], &b.vars[i]) {
            Order::Same => {}
            decided => return decided,
        }
    }
    Order::Same
}

// By exclusion lists.
fn exclusions(a: Disjunct, b: Disjunct) -> Order
    ensures { result ≡ rank (lex (lex compare) (map Labels.exclusions (view_disjunct a)) (map Labels.exclusions (view_disjunct b))) }
{
    for i in 0..Disjunct::VARIABLES {
        match slot_exclusions(&a.vars[i], &b.vars[i]) {
            Order::Same => {}
            decided => return decided,
        }
    }
    Order::Same
}

// "by values (a free variable before any value), then by exclusion lists, a list before any that it begins"
pub fn order(a: Disjunct, b: Disjunct) -> Order
    ensures { result ≡ rank (Labels.compare_disjuncts (view_disjunct a) (view_disjunct b)) }
{
    match values(a, b) {
        Order::Same => exclusions(a, b),
        decided => decided,
    }
}
