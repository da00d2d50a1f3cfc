// The symbol table, by value, and the places of the declared names. For the readers of lines and patterns.
#![tactic(auto)]

ghost use Rattle.std.specs.Prelude.{◌≡◌, true, [], ◌∷◌, ◌+◌, ◌≤◌, ◌<◌, set};
ghost use Rattle.laws.specs.Lists.{all};
ghost use Rattle.meaning.specs.Meaning.{no_symbol};
ghost use Rattle.meaning.specs.Book.{sound_parameter, bound_in};
ghost use Rattle.form.specs.Limits.{variable_limit, symbol_limit, parameter_limit};
ghost use Rattle.form.specs.Lines.{no_table};
ghost use Rattle.table.specs.Tables.{mask_bits, symbol_of, table_of, view_parameter, view_symbol};

// "0 to 4 variable names", "1 to 16 lines `sym NAME KIND ARGS`", "ARGS are 0 to 4 words"
pub const VARIABLES: usize = 4;

pub const SYMBOLS: usize = 16;

pub const PARAMETERS: usize = 4;

pub const NAMES: usize = VARIABLES + SYMBOLS;

// A parameter of a symbol: tag 0, ignored; tag 1, the variable with that number; tag 2, that number itself, fixed.
#[derive(Clone, Copy, PartialEq, Eq)]
pub struct Parameter {
    pub tag: u32,
    pub number: u32,
}

#[derive(Clone, Copy, PartialEq, Eq)]
pub struct Symbol {
    pub kind: u32,
    pub count: usize,
    pub parameters: [Parameter; PARAMETERS],
}

// The part of the text where a name is declared.
#[derive(Clone, Copy, PartialEq, Eq)]
pub struct Name {
    pub start: usize,
    pub size: usize,
}

// Variables' names come first, then symbols'.
#[derive(Clone, Copy, PartialEq, Eq)]
pub struct Table {
    pub variables: usize,
    pub count: usize,
    pub names: [Name; NAMES],
    pub symbols: [Symbol; SYMBOLS],
}

pub fn no_symbol() -> Symbol
    ensures { result ≡ symbol_of no_symbol }
{
    Symbol {
        kind: 0,
        count: 0,
        parameters: [Parameter { tag: 0, number: 0 }; PARAMETERS],
    }
}

pub fn no_table() -> Table
    ensures { result ≡ table_of no_table }
{
    Table {
        variables: 0,
        count: 0,
        names: [Name { start: 0, size: 0 }; NAMES],
        symbols: [no_symbol(); SYMBOLS],
    }
}

pub fn with_variable(mut t: Table, n: Name) -> Table
    requires { t.variables < variable_limit }
    ensures { result ≡ record { variables = t.variables + 1; count = t.count; names = set t.names t.variables n; symbols = t.symbols } }
{
    t.names[t.variables] = n;
    t.variables += 1;
    t
}

pub fn with_symbol(mut t: Table, n: Name, y: Symbol) -> Table
    requires { (t.variables ≤ variable_limit) × (t.count < symbol_limit) }
    ensures { result ≡ record {
      variables = t.variables;
      count = t.count + 1;
      names = set t.names (t.variables + t.count) n;
      symbols = set t.symbols t.count y;
    } }
{
    t.names[t.variables + t.count] = n;
    t.symbols[t.count] = y;
    t.count += 1;
    t
}

// The variables that a parameter binds, one bit to a variable.
fn parameter_bound(p: Parameter) -> u32
    requires { sound_parameter mask_bits (view_parameter p) ≡ true }
    ensures { result ≡ bound_in (view_parameter p ∷ []) }
{
    if p.tag == 1 { 1 << p.number } else { 0 }
}

// Those that a symbol binds.
pub fn bound_in(y: Symbol) -> u32
    requires { (y.count ≤ parameter_limit) × (all (sound_parameter mask_bits) (view_symbol y).parameters ≡ true) }
    ensures { result ≡ bound_in (view_symbol y).parameters }
{
    let mut m = 0;
    for p in &y.parameters[..y.count] {
        m |= parameter_bound(*p);
    }
    m
}
