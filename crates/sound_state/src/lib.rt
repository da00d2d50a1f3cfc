// Answer 9 for states filled in any way: the event number, the disjuncts held and their order. For the pure step of an event.
#![tactic(auto)]

ghost use Rattle.std.specs.Prelude.{◌≡◌, take};
ghost use Prim.Native.Nat.{compare, ◌≤◌};
ghost use Rattle.laws.specs.Order.{is_less, ascending};
ghost use Rattle.meaning.specs.Labels.{held_at, compare_held};
ghost use Rattle.meaning.specs.Room.{exclusion_limit, held_limit};
ghost use Rattle.meaning.specs.Limits.{variable_limit};
ghost use Rattle.disjunct.specs.Disjuncts.{view_disjunct};
ghost use Rattle.state.specs.States.{held_first};
ghost use Rattle.sound.specs.Soundness.{state_sound};
ghost use Rattle.sound.specs.Tests.{slot_sound, disjunct_sound, pool_sound};

use book::Book;
use disjunct::Disjunct;
use piece::POSITIONS;
use slot::{Order, Slot};
use state::State;

// The first n numbers ascend.
fn ascends(xs: [u32; Disjunct::EXCLUSIONS], n: usize) -> bool
    requires { n ≤ exclusion_limit }
    ensures { result ≡ ascending compare (take n xs) }
{
    for i in 1..n {
        if xs[i] <= xs[i - 1] {
            return false;
        }
    }
    true
}

fn sound_slot(s: Slot) -> bool
    ensures { result ≡ slot_sound s }
{
    if s.bound {
        s.count == 0
    } else {
        s.count <= Disjunct::EXCLUSIONS && ascends(s.excluded, s.count)
    }
}

// Each of the first n variables.
fn sound_disjunct(d: Disjunct, n: usize) -> bool
    requires { n ≤ variable_limit }
    ensures { result ≡ disjunct_sound n d }
{
    d.vars[..n].iter().all(|s| sound_slot(*s))
}

// One held disjunct before another: by position, then by the order of disjuncts.
fn before(p: u32, d: Disjunct, q: u32, e: Disjunct, n: usize) -> bool
    requires { n ≤ variable_limit }
    ensures { result ≡ is_less (compare_held (held_at p (take n (view_disjunct d))) (held_at q (take n (view_disjunct e)))) }
{
    p < q || (p == q && ordering::order(d.tidied(n), e.tidied(n)) == Order::Before)
}

// Each of the held disjuncts by itself.
fn sound_pool(s: State, variables: usize, positions: usize) -> bool
    requires { (variables ≤ variable_limit) × (s.count ≤ held_limit) }
    ensures { result ≡ pool_sound variables positions s }
{
    s.positions[..s.count]
        .iter()
        .all(|p| (1..=positions).contains(&(*p as usize)))
        && s.pool[..s.count]
            .iter()
            .all(|d| sound_disjunct(*d, variables))
}

// The held disjuncts in their order.
fn sound_order(s: State, variables: usize) -> bool
    requires { (variables ≤ variable_limit) × (s.count ≤ held_limit) }
    ensures { result ≡ ascending compare_held (held_first variables s) }
{
    for i in 1..s.count {
        if !before(
            s.positions[i - 1],
            s.pool[i - 1],
            s.positions[i],
            s.pool[i],
            variables,
        ) {
            return false;
        }
    }
    true
}

pub fn sound_state(b: Book, s: State) -> bool
    requires { b.variables ≤ variable_limit }
    ensures { result ≡ state_sound b s }
{
    if s.number > state::EVENTS || s.count > state::CAPACITY {
        return false;
    }
    // No more positions than the book has room for.
    let positions = b.positions.min(POSITIONS);
    sound_pool(s, b.variables, positions) && sound_order(s, b.variables)
}
