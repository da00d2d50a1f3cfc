// The state in a block of lent words: taken out of any words, stored in them, and made fresh. For the lent calls. Functions take slices, so that a
// part of a longer slice can be lent.
#![tactic(auto)]

ghost use Rattle.std.specs.Prelude.{◌≡◌, [], ◌∷◌, map, ◌*◌, ◌≤◌, length, get_or, take};
ghost use Rattle.laws.specs.Lists.{gather};
ghost use Rattle.laws.specs.Parts.{front, pad};
ghost use Rattle.meaning.specs.Labels.{fresh};
ghost use Rattle.meaning.specs.Room.{held_limit};
ghost use Rattle.slot.specs.Slots.{view_slot};
ghost use Rattle.disjunct.specs.Disjuncts.{disjunct_of};
ghost use Rattle.packed.specs.Sets.{slot_words, disjunct_words};
ghost use Rattle.blocks.specs.Groups.{groups};
ghost use Rattle.state.specs.States.{state_of};
ghost use Rattle.blocks.specs.StateBlock.{state_layout, state_size, slot_in, disjunct_in, state_held, state_in};
ghost use Rattle.blocks.specs.StateBlock.{entry_words, group_words, state_words, state_stored};

use disjunct::Disjunct;
use slot::Slot;
use state::{CAPACITY, State};

// The number of the layout, the first word.
pub const LAYOUT: u32 = 2001;

// The words of a variable and of a disjunct, the code of a value, and where the parts of a state begin.
const SLOT: usize = 1 + Disjunct::EXCLUSIONS;

const GROUP: usize = Disjunct::VARIABLES * SLOT;

const BOUND: u32 = 1 + Disjunct::EXCLUSIONS as u32;

const POSITIONS_FROM: usize = 3;

const POOL_FROM: usize = POSITIONS_FROM + CAPACITY;

pub const WORDS: usize = POOL_FROM + CAPACITY * GROUP;

// What a variable's words say. A code above that of a value is a count that no sound slot has.
fn slot_in(words: &[u32]) -> Slot
    requires { slot_words ≤ length words.now }
    ensures { result ≡ slot_in words.now }
{
    let code = words[0];
    if code == BOUND {
        return Slot::holding(words[1]);
    }
    let mut excluded = [0; Disjunct::EXCLUSIONS];
    excluded.copy_from_slice(&words[1..SLOT]);
    Slot {
        bound: false,
        value: 0,
        count: code as usize,
        excluded,
    }
}

fn disjunct_in(words: &[u32]) -> Disjunct
    requires { disjunct_words ≤ length words.now }
    ensures { result ≡ disjunct_in words.now }
{
    let mut d = Disjunct::free();
    for i in 0..Disjunct::VARIABLES {
        d.vars[i] = slot_in(&words[SLOT * i..SLOT * i + SLOT]);
    }
    d
}

// The first n disjuncts, the other places free.
fn pool_in(words: &[u32], n: usize) -> [Disjunct; CAPACITY]
    requires { (held_limit * disjunct_words ≤ length words.now) × (n ≤ held_limit) }
    ensures { result ≡ pad held_limit (disjunct_of []) (take n (map disjunct_in (groups disjunct_words held_limit words.now))) }
{
    let mut pool = [Disjunct::free(); CAPACITY];
    for i in 0..n {
        pool[i] = disjunct_in(&words[GROUP * i..GROUP * i + GROUP]);
    }
    pool
}

// The first n positions, the others zero.
fn positions_in(words: &[u32], n: usize) -> [u32; CAPACITY]
    requires { (held_limit ≤ length words.now) × (n ≤ held_limit) }
    ensures { result ≡ pad held_limit 0 (take n (take held_limit words.now)) }
{
    let mut positions = [0; CAPACITY];
    blocks::copy(&words[..n], &mut positions);
    positions
}

// The state in words of this layout.
fn held(words: &[u32]) -> State
    requires { length words.now ≡ state_size }
    ensures { result ≡ state_held words.now }
{
    let count = words[2] as usize;
    let n = count.min(CAPACITY);
    State {
        number: words[1],
        count,
        positions: positions_in(&words[POSITIONS_FROM..], n),
        pool: pool_in(&words[POOL_FROM..], n),
    }
}

// The state in any words: one that is unsound, where the layout is another.
pub fn state_in(words: &[u32]) -> State
    requires { length words.now ≡ state_size }
    ensures { result ≡ state_in words.now }
{
    if words[0] == LAYOUT {
        held(words)
    } else {
        state::vacant(state::EVENTS + 1)
    }
}

// A variable's words, all that is not counted zero.
fn put_slot(words: &mut [u32], s: Slot)
    requires { slot_words ≤ length words.old }
    ensures { words.new ≡ front (entry_words (view_slot s)) words.old }
{
    let t = s.tidied();
    let n = t.size();
    let x = t.excluded;
    let (code, first) = if t.bound {
        (BOUND, t.value)
    } else {
        (n as u32, x[0])
    };
    words[..SLOT].copy_from_slice(&[code, first, x[1], x[2], x[3], x[4], x[5]]);
}

fn put_group(words: &mut [u32], d: Disjunct)
    requires { disjunct_words ≤ length words.old }
    ensures { words.new ≡ front (group_words d) words.old }
{
    for i in 0..Disjunct::VARIABLES {
        put_slot(&mut words[SLOT * i..], d.vars[i]);
    }
}

// The groups of the first n places.
fn put_pool(words: &mut [u32], pool: [Disjunct; CAPACITY], n: usize)
    requires { (held_limit * disjunct_words ≤ length words.old) × (n ≤ held_limit) }
    ensures { words.new ≡ front (gather group_words (take n pool)) words.old }
{
    for i in 0..n {
        put_group(&mut words[GROUP * i..], pool[i]);
    }
}

// The words before the positions.
fn put_head(words: &mut [u32], number: u32, count: usize)
    requires { (length words.old ≡ state_size) × (count ≤ held_limit) }
    ensures { words.new ≡ front (state_layout ∷ number ∷ count ∷ []) words.old }
{
    words[0] = LAYOUT;
    words[1] = number;
    words[2] = count as u32;
}

// A state stored in a block that held so many disjuncts: the places that are or were held are written, those behind stay.
pub fn store(words: &mut [u32], old: usize, s: State)
    requires { (length words.old ≡ state_size) × (old ≡ get_or words.old 2 0) × (old ≤ held_limit) × (s.count ≤ held_limit) }
    ensures { words.new ≡ state_stored words.old s }
{
    let m = old.max(s.count);
    put_head(words, s.number, s.count);
    blocks::copy(&s.positions[..m], &mut words[POSITIONS_FROM..]);
    put_pool(&mut words[POOL_FROM..], s.pool, m);
}

// "A fresh state has all 128 disjunct places free and event number 0.": every word is written.
pub fn put_fresh(words: &mut [u32])
    requires { length words.old ≡ state_size }
    ensures { words.new ≡ state_words (state_of fresh) }
{
    words.fill(0);
    words[0] = LAYOUT;
}
