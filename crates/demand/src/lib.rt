// What a symbol's constraint on an event says, by value: the types. How a constraint is made is in `constraint`, how a disjunct meets one in
// `disjunct`.
#![tactic(auto)]

// As many demands as a symbol has parameters.
pub const DEMANDS: usize = 4;

// "variable equals argument"
#[derive(Clone, Copy, PartialEq, Eq)]
pub struct Demand {
    pub variable: u32,
    pub value: u32,
}

// The first `count` demands, all of which must hold. A constraint that is false is the `None` of an `Option`.
#[derive(Clone, Copy, PartialEq, Eq)]
pub struct Constraint {
    pub count: usize,
    pub demands: [Demand; DEMANDS],
}
