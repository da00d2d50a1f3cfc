// Disjuncts in lent words: to each of a disjunct's variables a code and its value, or a code and its exclusions. Only `get` and `put` know
// the words. For the sets that one event makes, and for the state.
#![tactic(auto)]

ghost use Rattle.std.specs.Prelude.{◌≡◌, false, [], ◌+◌, ◌*◌, ◌≤◌, ◌<◌, length, get_or, set};
ghost use Rattle.meaning.specs.Room.{held_limit};
ghost use Rattle.meaning.specs.Limits.{variable_limit};
ghost use Rattle.slot.specs.Slots.{view_slot};
ghost use Rattle.disjunct.specs.Disjuncts.{view_disjunct};
ghost use Rattle.packed.specs.Sets.{slot_words, disjunct_words, entry_at, entries_in, disjuncts_in};

use disjunct::Disjunct;
use slot::Slot;

// How many disjuncts a set may have: "exceeds 128".
pub const CAPACITY: usize = 128;

// The words of a variable: a code, and its value or room for its exclusions.
const SLOT_WORDS: usize = 1 + Disjunct::EXCLUSIONS;

pub const WORDS: usize = CAPACITY * Disjunct::VARIABLES * SLOT_WORDS;

pub type Words = [u32; WORDS];

// The code of a bound variable, above any number of exclusions, which is the code of a free one.
const BOUND: u32 = 1 + Disjunct::EXCLUSIONS as u32;

// What the words from `at` on say of a variable. A slice, since that is where the array's length is known.
fn read_slot(words: &[u32], at: usize) -> Slot
    requires { at + slot_words ≤ length words.now }
    ensures { view_slot result ≡ entry_at words.now at }
{
    let code = words[at];
    if code == BOUND {
        return Slot::holding(words[at + 1]);
    }
    let mut excluded = [0; Disjunct::EXCLUSIONS];
    excluded.copy_from_slice(&words[at + 1..at + SLOT_WORDS]);
    Slot {
        bound: false,
        value: 0,
        count: code as usize,
        excluded,
    }
}

// The i-th disjunct.
pub fn get(words: &Words, i: usize) -> Disjunct
    requires { i < held_limit }
    ensures { view_disjunct result ≡ get_or (disjuncts_in words.now) i [] }
{
    let mut d = Disjunct::free();
    for v in 0..Disjunct::VARIABLES {
        d.vars[v] = read_slot(words, (i * Disjunct::VARIABLES + v) * SLOT_WORDS);
    }
    d
}

// The words of a variable, two for a value and else seven, from the place of its number j among all variables of all disjuncts.
fn put_slot(words: &mut [u32], j: usize, s: Slot)
    requires { (j < held_limit * variable_limit) × (length words.old ≡ held_limit * disjunct_words) }
    ensures { entries_in words.new ≡ set (entries_in words.old) j (view_slot s) }
{
    let at = j * SLOT_WORDS;
    if s.bound {
        words[at] = BOUND;
        words[at + 1] = s.value;
    } else {
        words[at] = s.size() as u32;
        words[at + 1..at + SLOT_WORDS].copy_from_slice(&s.excluded);
    }
}

// The i-th disjunct written over.
pub fn put(words: &mut Words, i: usize, d: Disjunct)
    requires { i < held_limit }
    ensures { disjuncts_in words.new ≡ set (disjuncts_in words.old) i (view_disjunct d) }
{
    for (v, s) in d.vars.iter().enumerate() {
        put_slot(words, i * Disjunct::VARIABLES + v, *s);
    }
}
