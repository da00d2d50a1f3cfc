// The disjunct: what it says of each of four variables; meeting and exclusion. For the matcher's sets; the order is in `ordering`.
#![tactic(auto)]

ghost use Rattle.std.specs.Prelude.{◌≡◌, ◌≤◌, ◌<◌, leb, length, take, Some, is_ok, IfOk, IfErr, IfSome};
ghost use Rattle.laws.specs.Lists.{any};
ghost use Rattle.meaning.specs.Labels as Labels;
ghost use Rattle.meaning.specs.Room.{exclusion_limit};
ghost use Rattle.meaning.specs.Rows.{valuation_of};
ghost use Rattle.meaning.specs.Limits.{variable_limit};
ghost use Rattle.demand.specs.Constraints.{view_constraint, Ready};
ghost use Rattle.disjunct.specs.Disjuncts.{view_disjunct, disjunct_of};

use demand::Constraint;
use slot::Slot;

// A slot for each of four variables; those beyond the book's variables are free.
#[derive(Clone, Copy, PartialEq, Eq)]
pub struct Disjunct {
    pub vars: [Slot; Disjunct::VARIABLES],
}

impl Disjunct {
    pub const VARIABLES: usize = 4;

    pub const EXCLUSIONS: usize = slot::EXCLUSIONS;

    // "The free disjunct has nothing bound and nothing excluded"
    pub fn free() -> Disjunct
        ensures { result ≡ disjunct_of (Labels.free_disjunct variable_limit) }
    {
        let s = Slot::free();
        Disjunct {
            vars: [s; Disjunct::VARIABLES],
        }
    }

    // "Meeting a disjunct with a constraint yields a new disjunct or false": None is a false constraint; Err is the false meeting, with the
    // disjunct as it was.
    pub fn meet(self, c: Option<Constraint>) -> Result<Disjunct, Disjunct>
        requires { IfSome c Ready }
        ensures meets { is_ok result ≡ Labels.meets (view_disjunct self) (view_constraint c) }
        ensures met { IfOk result (λ d. view_disjunct d ≡ Labels.met (view_disjunct self) (view_constraint c)) }
        ensures kept { IfErr result (λ d. d ≡ self) }
    {
        let Some(constraint) = c else {
            return Err(self);
        };
        let mut d = self;
        for i in 0..constraint.count {
            let x = constraint.demands[i];
            let v = x.variable as usize;
            if !d.vars[v].admits(x.value) {
                return Err(self);
            }
            d.vars[v] = Slot::holding(x.value);
        }
        Ok(d)
    }

    // Whether variable v is free.
    pub fn is_free(self, v: usize) -> bool
        requires { v < variable_limit }
        ensures { result ≡ Labels.is_free (Labels.entry_of (view_disjunct self) v) }
    {
        !self.vars[v].bound
    }

    // x excluded at variable v; the disjunct as it was where it would be the seventh.
    pub fn exclude(self, v: usize, x: u32) -> Result<Disjunct, Disjunct>
        requires { v < variable_limit }
        ensures room { is_ok result ≡ leb (length (Labels.exclusions (Labels.excluding (Labels.entry_of (view_disjunct self) v) x))) exclusion_limit }
        ensures excluded { IfOk result (λ d. view_disjunct d ≡ Labels.exclude (view_disjunct self) (record { variable = v; value = x })) }
        ensures kept { IfErr result (λ d. d ≡ self) }
    {
        let mut d = self;
        match self.vars[v].excluding(x) {
            Ok(slot) => {
                d.vars[v] = slot;
                Ok(d)
            }
            Err(_) => Err(self),
        }
    }

    // The first n variables as they are, the others free, and all that is not counted zero.
    pub fn tidied(self, n: usize) -> Disjunct
        requires { n ≤ variable_limit }
        ensures { result ≡ disjunct_of (take n (view_disjunct self)) }
    {
        let mut d = Disjunct::free();
        for i in 0..n {
            d.vars[i] = self.vars[i].tidied();
        }
        d
    }

    // The values of the variables, 0 for a free one.
    pub fn values(self) -> [u32; Disjunct::VARIABLES]
        ensures { result ≡ valuation_of (view_disjunct self) }
    {
        self.vars.map(|s| if s.bound { s.value } else { 0 })
    }

    // Whether one of the first n variables is free.
    pub fn leaves_free(self, n: usize) -> bool
        requires { n ≤ variable_limit }
        ensures { result ≡ any Labels.is_free (take n (view_disjunct self)) }
    {
        self.vars[..n].iter().any(|s| !s.bound)
    }
}
