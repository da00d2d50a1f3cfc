// Disjuncts in the order of document 01, as entries: `d` has a value in each, `s` has one or is free without some. No two entries of one position
// and one `d` have `s` free, so that values alone decide the order.
ghost use Rattle.std.specs.Prelude.{◌≤◌, length};

// "at most 128 disjuncts", "at most 6 excluded values"
pub const PLACES: usize = 128;

pub const EXCLUSIONS: usize = 6;

// One more than may be held: a list that has no room.
const ROOM: usize = PLACES + 1;

// The values that a free `s` does not have, ascending: so many of the numbers.
#[derive(Clone, Copy, PartialEq, Eq)]
pub struct Excluded {
    count: usize,
    numbers: [u32; EXCLUSIONS],
}

impl Excluded {
    // Of up to six that ascend.
    pub fn of(xs: &[u32]) -> Excluded {
        let mut numbers = [0; EXCLUSIONS];
        for (place, x) in numbers.iter_mut().zip(xs) {
            *place = *x;
        }
        Excluded {
            count: xs.len().min(EXCLUSIONS),
            numbers,
        }
    }

    pub fn values(&self) -> &[u32]
        ensures { length result.now ≤ 6 }
    {
        &self.numbers[..self.count.min(EXCLUSIONS)]
    }

    // One value more, in its place; not the seventh.
    pub fn with(self, x: u32) -> Option<Excluded> {
        let n = self.count;
        if EXCLUSIONS <= n {
            return None;
        }
        let mut numbers = self.numbers;
        numbers[n] = x;
        numbers[..n + 1].sort_unstable();
        Some(Excluded {
            count: n + 1,
            numbers,
        })
    }
}

// What an entry says of `s`.
#[derive(Clone, Copy, PartialEq, Eq)]
pub enum Second {
    Free(Excluded),
    Value(u32),
}

impl Second {
    // Whether it may have the value.
    pub fn admits(self, x: u32) -> bool {
        match self {
            Second::Free(excluded) => !excluded.values().contains(&x),
            Second::Value(y) => x == y,
        }
    }

    pub fn value(self) -> Option<u32> {
        match self {
            Second::Free(_) => None,
            Second::Value(x) => Some(x),
        }
    }
}

#[derive(Clone, Copy)]
pub struct Entry {
    pub position: u32,
    pub d: u32,
    pub s: Second,
}

impl Entry {
    // "Held disjuncts stand by position, then by values (a free variable before any value)"
    fn precedes(&self, other: &Entry) -> bool {
        (self.position, self.d, self.s.value()) < (other.position, other.d, other.s.value())
    }
}

impl Default for Entry {
    fn default() -> Entry {
        Entry {
            position: 0,
            d: 0,
            s: Second::Value(0),
        }
    }
}

// What is held: so many of the entries.
#[derive(Clone, Copy)]
pub struct Held {
    count: usize,
    entries: [Entry; ROOM],
}

impl Held {
    pub fn none() -> Held {
        Held {
            count: 0,
            entries: [Entry::default(); ROOM],
        }
    }

    pub fn entries(&self) -> &[Entry] {
        &self.entries[..self.count.min(ROOM)]
    }

    // An entry more, behind the others.
    pub fn push(&mut self, e: Entry) {
        if self.count < ROOM {
            self.entries[self.count] = e;
            self.count += 1;
        }
    }

    // An entry more, behind those that precede it.
    pub fn insert(&mut self, e: Entry) {
        let n = self.count;
        if n < ROOM {
            let at = (self.entries().iter().position(|x| !x.precedes(&e))).unwrap_or(n);
            self.entries[n] = e;
            self.entries[at.min(n)..n + 1].rotate_right(1);
            self.count = n + 1;
        }
    }
}
