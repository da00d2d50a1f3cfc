// The state of a watch by value: the event number and the pool of disjuncts; taken into lent words and made of them.
#![tactic(auto)]

ghost use Rattle.std.specs.Prelude.{◌≡◌, [], map, ◌≤◌};
ghost use Rattle.meaning.specs.Room.{held_limit};
ghost use Rattle.meaning.specs.Limits.{variable_limit};
ghost use Rattle.meaning.specs.Wide.{wide_held};
ghost use Rattle.packed.specs.Held.{held_in};
ghost use Rattle.state.specs.States.{state_of, held_first};

use disjunct::Disjunct;
use packed::Words;

// "all 128 disjunct places": a place for each disjunct of a set.
pub const CAPACITY: usize = packed::CAPACITY;

// "1,000,000 events"
pub const EVENTS: u32 = 1000000;

// The first `count` places are taken: the position and the disjunct in its label. The others are free.
#[derive(Clone, Copy, PartialEq, Eq)]
pub struct State {
    pub number: u32,
    pub count: usize,
    pub positions: [u32; CAPACITY],
    pub pool: [Disjunct; CAPACITY],
}

// All places free.
pub fn vacant(number: u32) -> State
    ensures { result ≡ state_of (record { number = number; held = [] }) }
{
    State {
        number,
        count: 0,
        positions: [0; CAPACITY],
        pool: [Disjunct::free(); CAPACITY],
    }
}

// What the state holds of the first `variables` variables, in lent words; the further variables free.
pub fn load(s: State, variables: usize, at: &mut [u32; CAPACITY], words: &mut Words)
    requires { (s.count ≤ held_limit) × (variables ≤ variable_limit) }
    ensures { held_in s.count at.new words.new ≡ map wide_held (held_first variables s) }
{
    *at = s.positions;
    for (i, d) in s.pool[..s.count].iter().enumerate() {
        packed::put(words, i, d.tidied(variables));
    }
}

// The state that holds what the lent words say, all that is not counted zero.
pub fn store(number: u32, at: &[u32; CAPACITY], words: &Words, n: usize) -> State
    requires { n ≤ held_limit }
    ensures { result ≡ state_of (record { number = number; held = held_in n at.now words.now }) }
{
    let mut positions = [0; CAPACITY];
    positions[..n].copy_from_slice(&at[..n]);
    let mut s = State {
        count: n,
        positions,
        ..vacant(number)
    };
    for i in 0..n {
        s.pool[i] = packed::get(words, i).tidied(Disjunct::VARIABLES);
    }
    s
}
