// The constraint of a symbol on an event: what it demands of the variables, or false. For the matcher's sets.
#![tactic(auto)]

ghost use Rattle.std.specs.Prelude.{◌≡◌, true, ◌&&◌, map, ℕ, suc, ◌≤◌, ◌<◌, leb, take, drop, get_or, IfSome};
ghost use Rattle.laws.specs.Lists.{all};
ghost use Rattle.meaning.specs.Events as Events;
ghost use Rattle.meaning.specs.Book.{sound_parameter};
ghost use Rattle.meaning.specs.Limits.{variable_limit, symbol_limit, parameter_limit, argument_limit};
ghost use Rattle.table.specs.Tables.{view_symbol};
ghost use Rattle.record.specs.Records.{view_event};
ghost use Rattle.demand.specs.Constraints.{no_demand, no_constraint, demands_in, view_constraint, Ready};

pub use demand::{Constraint, Demand};
use record::Event;
use table::{PARAMETERS, SYMBOLS, Symbol};

// The constraints of all symbols that a book may have.
pub type Constraints = [Option<Constraint>; SYMBOLS];

// "A symbol matches an event when the kinds are equal and the event's argument count equals the symbol's."
pub fn matches(y: Symbol, e: Event) -> bool
    requires { (y.count ≤ parameter_limit) × (e.count ≤ argument_limit) }
    ensures { result ≡ Events.matches (view_symbol y) (view_event e) }
{
    y.kind == e.kind && y.count == e.count
}

// "The symbol's constraint is false where that argument differs.": whether it differs at no fixed place among the first ones of both.
fn fixed_agree(y: Symbol, e: Event) -> bool
    requires { (y.count ≤ parameter_limit) × (e.count ≡ y.count) }
    ensures { result ≡ Events.fixed_all (view_symbol y).parameters (view_event e).args }
{
    for i in 0..y.count {
        let p = y.parameters[i];
        let given = e.args[i];
        if p.tag == 2 && p.number != given {
            return false;
        }
    }
    true
}

// "variable equals argument" for each bound place among the first ones of both.
fn demands(y: Symbol, e: Event) -> Constraint
    requires { (y.count ≤ parameter_limit) × (e.count ≡ y.count) × (all (sound_parameter variable_limit) (view_symbol y).parameters ≡ true) }
    ensures { (demands_in result ≡ Events.demands_of (view_symbol y).parameters (view_event e).args) × Ready result }
{
    let none = Demand {
        variable: 0,
        value: 0,
    };
    let mut r = Constraint {
        count: 0,
        demands: [none; PARAMETERS],
    };
    for i in 0..y.count {
        let p = y.parameters[i];
        if p.tag == 1 {
            r.demands[r.count] = Demand {
                variable: p.number,
                value: e.args[i],
            };
            r.count += 1;
        }
    }
    r
}

// Whether demand i agrees with each later one on its variable.
fn agrees_from(c: Constraint, i: usize) -> bool
    requires { Ready c × (i < c.count) }
    ensures { result ≡ all (Events.compatible (get_or (demands_in c) i no_demand)) (drop (suc i) (demands_in c)) }
{
    let d = c.demands[i];
    for j in i + 1..c.count {
        let x = c.demands[j];
        if x.variable == d.variable && x.value != d.value {
            return false;
        }
    }
    true
}

// No two demands are unequal on one variable.
fn consistent(c: Constraint) -> bool
    requires { Ready c }
    ensures { result ≡ Events.consistent (demands_in c) }
{
    for i in 0..c.count {
        if !agrees_from(c, i) {
            return false;
        }
    }
    true
}

// None where the constraint is false.
pub fn constraint_of(y: Symbol, e: Event) -> Option<Constraint>
    requires { (y.count ≤ parameter_limit) × (e.count ≤ argument_limit) × (all (sound_parameter variable_limit) (view_symbol y).parameters ≡ true) }
    ensures { (view_constraint result ≡ Events.constraint_of (view_symbol y) (view_event e)) × IfSome result Ready }
{
    if !matches(y, e) || !fixed_agree(y, e) {
        return None;
    }
    let c = demands(y, e);
    if consistent(c) { Some(c) } else { None }
}

// The constraints of the first n symbols of a table.
pub fn constraints(table: [Symbol; SYMBOLS], n: usize, e: Event) -> Constraints
    requires { (n ≤ symbol_limit) × (e.count ≤ argument_limit)
        × (all (λ y. leb y.count parameter_limit && all (sound_parameter variable_limit) (view_symbol y).parameters) (take n table) ≡ true) }
    ensures { (map view_constraint (take n result) ≡ map (λ y. Events.constraint_of (view_symbol y) (view_event e)) (take n table))
        × ((i : ℕ) → i < n → IfSome (get_or result i no_constraint) Ready) }
{
    let mut r = [None; SYMBOLS];
    for i in 0..n {
        r[i] = constraint_of(table[i], e);
    }
    r
}
