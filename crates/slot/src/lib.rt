// What a disjunct says of one variable: a value, or free with up to six excluded values. For the disjunct; the order is in `ordering`.
#![tactic(auto)]

ghost use Rattle.std.specs.Prelude.{◌≡◌, true, false, [], ◌∷◌, ◌++◌, suc, ◌≤◌, ◌<◌, eqb, leb, length, take, drop, is_ok, IfOk, IfErr};
ghost use Prim.Native.Nat.{compare};
ghost use Rattle.laws.specs.Lists.{any};
ghost use Rattle.meaning.specs.Labels as Labels;
ghost use Rattle.meaning.specs.Room.{exclusion_limit};
ghost use Rattle.slot.specs.Slots.{view_slot, slot_of, smaller, rank};

// "at most 6 excluded values"
pub const EXCLUSIONS: usize = 6;

// The first `count` exclusions of a free variable, ascending; a bound one has its value and no exclusions.
#[derive(Clone, Copy, PartialEq, Eq)]
pub struct Slot {
    pub bound: bool,
    pub value: u32,
    pub count: usize,
    pub excluded: [u32; EXCLUSIONS],
}

// The answers of a comparison. The product names nothing of `std` or `core`, so this is no `std::cmp::Ordering`.
#[derive(Clone, Copy, PartialEq, Eq)]
pub enum Order {
    Before,
    Same,
    After,
}

impl Order {
    // Two numbers compared.
    pub fn of(x: u64, y: u64) -> Order
        ensures { result ≡ rank (compare x y) }
    {
        if x < y {
            Order::Before
        } else if x == y {
            Order::Same
        } else {
            Order::After
        }
    }
}

impl Slot {
    pub fn free() -> Slot
        ensures { result ≡ slot_of (Labels.Entry.free []) }
    {
        Slot {
            bound: false,
            value: 0,
            count: 0,
            excluded: [0u32; EXCLUSIONS],
        }
    }

    pub fn holding(x: u32) -> Slot
        ensures { result ≡ slot_of (Labels.Entry.bound x) }
    {
        Slot {
            bound: true,
            value: x,
            count: 0,
            excluded: [0u32; EXCLUSIONS],
        }
    }

    // How many values are excluded.
    pub fn size(self) -> usize
        ensures { (result ≡ length (Labels.exclusions (view_slot self))) × (result ≤ exclusion_limit) }
    {
        if self.bound {
            0
        } else {
            self.count.min(EXCLUSIONS)
        }
    }

    // How many of the excluded values stand before x: the smaller ones at the beginning.
    fn insertion_point(self, x: u32) -> usize
        ensures { (result ≡ smaller x (Labels.exclusions (view_slot self))) × (result ≤ exclusion_limit) }
    {
        let n = self.size();
        self.excluded[..n].iter().position(|y| x <= *y).unwrap_or(n)
    }

    fn excludes(self, x: u32) -> bool
        ensures { result ≡ any (eqb x) (Labels.exclusions (view_slot self)) }
    {
        self.excluded[..self.size()].contains(&x)
    }

    // Whether the variable may have the value x.
    pub fn admits(self, x: u32) -> bool
        ensures { result ≡ Labels.admits (view_slot self) x }
    {
        if self.bound {
            self.value == x
        } else {
            !self.excludes(x)
        }
    }

    // x among the exclusions of a free variable, in its place; the slot as it was where it would be the seventh.
    pub fn excluding(self, x: u32) -> Result<Slot, Slot>
        ensures room { is_ok result ≡ leb (length (Labels.exclusions (Labels.excluding (view_slot self) x))) exclusion_limit }
        ensures slot { IfOk result (λ s. view_slot s ≡ Labels.excluding (view_slot self) x) }
        ensures kept { IfErr result (λ s. s ≡ self) }
    {
        if self.bound {
            return Ok(self);
        }
        let n = self.size();
        let k = self.insertion_point(x);
        if k < n && self.excluded[k] == x {
            return Ok(self);
        }
        if n == EXCLUSIONS {
            return Err(self);
        }
        Ok(Slot {
            bound: false,
            value: 0,
            count: n + 1,
            excluded: opened(self.excluded, k, n, x),
        })
    }

    // The same slot with all that is not counted zero.
    pub fn tidied(self) -> Slot
        ensures { result ≡ slot_of (view_slot self) }
    {
        if self.bound {
            return Slot::holding(self.value);
        }
        let n = self.size();
        let mut xs = self.excluded;
        xs[n..].fill(0);
        Slot {
            bound: false,
            value: 0,
            count: n,
            excluded: xs,
        }
    }
}

// The first n numbers with x put at k, the later ones moved up by one.
fn opened(mut xs: [u32; EXCLUSIONS], k: usize, n: usize, x: u32) -> [u32; EXCLUSIONS]
    requires { (k ≤ n) × (n < exclusion_limit) }
    ensures { take (suc n) result ≡ take k xs ++ x ∷ drop k (take n xs) }
{
    xs.copy_within(k..n, k + 1);
    xs[k] = x;
    xs
}
