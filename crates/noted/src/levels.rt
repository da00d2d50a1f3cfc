// What every word of the pattern has, as far as it is read: a few bits for each depth of parentheses, for 7 and 8. For the second
// reader.
ghost use Rattle.std.specs.Prelude.{◌≡◌, [], ◌∷◌, ◌++◌, ◌<◌, ltb, length, None, Some, is_some};

use arrayvec::ArrayVec;
use std::mem;

// What every word of a part of the pattern has: a bit to each variable where it binds it, and a fifth where it is not empty. All of them.
pub const NOT_EMPTY: u8 = 16;

pub const ALL: u8 = 31;

// "at most 16 parentheses open together"
pub const OPEN_LIMIT: usize = 16;

// One depth of parentheses.
#[derive(Clone, Copy, Default)]
struct Level {
    // What some word of the sequences before this one lacks.
    lacked: u8,
    // What every word of this sequence but its last item has.
    before: u8,
    // What every word of the last item has; none where nothing of the sequence stands yet.
    item: Option<u8>,
}

impl Level {
    // A sequence of which there is nothing yet.
    fn begin(lacked: u8) -> Level
        ensures { result.item ≡ None }
    {
        Level {
            lacked,
            before: 0,
            item: None,
        }
    }

    // What every word of the sequence has, its last item included: what either part has.
    fn sequence(self) -> u8 {
        self.before | self.item.unwrap_or(0)
    }
}

// The depth that the scan is at, and those around it, the outermost first, with places for so many.
#[derive(Drop)]
pub struct LevelsOf<const D: usize> {
    inner: Level,
    around: ArrayVec<Level, D>,
}

// With places for as many as a book may open.
pub type Levels = LevelsOf<OPEN_LIMIT>;

impl<const D: usize> LevelsOf<D> {
    pub fn new() -> LevelsOf<D> {
        LevelsOf {
            inner: Level::begin(0),
            around: ArrayVec::new(),
        }
    }

    // How many parentheses are open.
    pub fn depth(&self) -> usize
        ensures { result ≡ length self.now.around.items }
    {
        self.around.len()
    }

    // Whether an item stands before.
    pub fn stands(&self) -> bool
        ensures { result ≡ is_some self.now.inner.item }
    {
        self.inner.item.is_some()
    }

    // What every word of the alternation has, this sequence included: what no word of those before lacks.
    pub fn alternation(&self) -> u8 {
        self.inner.sequence() & (ALL ^ self.inner.lacked)
    }

    // One item more.
    pub fn add(&mut self, has: u8)
        ensures item { self.new.inner.item ≡ Some has }
        ensures around { self.new.around ≡ self.old.around }
    {
        self.inner.before = self.inner.sequence();
        self.inner.item = Some(has);
    }

    // The last item may be left out.
    pub fn optional(&mut self)
        ensures item { self.new.inner.item ≡ Some 0 }
        ensures around { self.new.around ≡ self.old.around }
    {
        self.inner.item = Some(0);
    }

    // One sequence more of the alternation.
    pub fn divide(&mut self)
        ensures item { self.new.inner.item ≡ None }
        ensures around { self.new.around ≡ self.old.around }
    {
        self.inner = Level::begin(self.inner.lacked | ALL ^ self.inner.sequence());
    }

    // One depth more. What is around it is dropped where it has no place, so that the last `close` finds nothing open; where a book's places
    // are full, its text has a fault.
    pub fn open(&mut self)
        ensures around { length self.old.around.items < D → self.new.around.items ≡ self.old.around.items ++ self.old.inner ∷ [] }
        ensures inner { self.new.inner.item ≡ None }
    {
        let around = mem::replace(&mut self.inner, Level::begin(0));
        let _ = self.around.try_push(around);
    }

    // The alternation in parentheses is an item of what is around it: whether one was open.
    pub fn close(&mut self) -> bool
        ensures { result ≡ ltb 0 (length self.old.around.items) }
    {
        let has = self.alternation();
        let Some(around) = self.around.pop() else {
            return false;
        };
        self.inner = around;
        self.add(has);
        true
    }
}
