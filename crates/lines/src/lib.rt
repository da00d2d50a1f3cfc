// The reader of the lines before the pattern: `vars`, then `sym` lines, up to the word `match`. For the reader of books.
#![tactic(auto)]

ghost use Rattle.std.specs.Prelude.{◌≡◌, true, map, ◌-◌, ◌+◌, ◌≤◌, length, take, Err};
ghost use Rattle.laws.specs.Lists.{all};
ghost use Rattle.form.specs.Limits.{variable_limit, symbol_limit, parameter_limit};
ghost use Rattle.form.specs.Form.{same_word};
ghost use Rattle.form.specs.Scan.{part};
ghost use Rattle.form.specs.Lines as Lines;
ghost use Rattle.table.specs.Tables.{symbol_of, span_of, inside, view_symbol, view_table, Ready};
ghost use Rattle.lines.specs.Results.{lines_read, variables_read, arguments_read, symbol_read, name_brought, argument_read};

use table::{Name, Parameter, Symbol, Table};
use text::Refusal;

// What was read of the lines: the place to go on from, and the table so far.
#[derive(Clone, Copy)]
pub struct LinesRead {
    pub place: usize,
    pub table: Table,
}

// Why the lines are refused, and the table so far.
#[derive(Clone, Copy)]
pub struct LinesRefused {
    pub refusal: Refusal,
    pub table: Table,
}

#[derive(Clone, Copy)]
pub struct ArgumentsRead {
    pub place: usize,
    pub symbol: Symbol,
}

#[derive(Clone, Copy)]
pub struct SymbolRead {
    pub place: usize,
    pub name: Name,
    pub symbol: Symbol,
}

fn is_word(s: &[u8], p: usize, e: usize, word: &[u8]) -> bool
    requires { (p ≤ e) × (e ≤ length s.now) }
    ensures { result ≡ same_word (part s.now p e) word.now }
{
    &s[p..e] == word
}

// The word from p to e as a new name beside those names.
fn new_name(s: &[u8], names: &[Name], p: usize, e: usize) -> Result<Name, Refusal>
    requires { (p ≤ e) × (e ≤ length s.now) × (all (inside (length s.now)) (map span_of names.now) ≡ true) }
    ensures { result ≡ name_brought s.now (map span_of names.now) p e }
{
    words::name_told(s, p, e)?;
    if lookup::find(s, names, p, e).is_some() {
        return Err(Refusal::Redeclared(p));
    }
    Ok(Name {
        start: p,
        size: e - p,
    })
}

// Variable names from p on.
fn variables_from(s: &[u8], t: Table, p: usize) -> Result<LinesRead, Refusal>
    requires { Ready s.now t × (t.count ≡ 0) × (p ≤ length s.now) }
    ensures { result ≡ variables_read (Lines.variables_from s.now (variable_limit - t.variables) (view_table t).variables p) }
{
    let q = text::next_word(s, p)?;
    if q == p {
        return Ok(LinesRead {
            place: p + 1,
            table: t,
        });
    }
    let count = t.variables;
    if table::VARIABLES <= count {
        return Err(Refusal::AboveLimit(q));
    }
    let e = text::word_end(s, q);
    let name = new_name(s, &t.names[..count], q, e)?;
    let more = table::with_variable(t, name);
    variables_from(s, more, e)
}

// The parameter that an argument word from p to e stands for, where those variables are declared: `_`, `=` and a number, or a variable.
fn argument(s: &[u8], variables: &[Name], p: usize, e: usize) -> Result<Parameter, Refusal>
    requires { (p ≤ e) × (e ≤ length s.now) × (length variables.now ≤ variable_limit)
        × (all (inside (length s.now)) (map span_of variables.now) ≡ true) }
    ensures { result ≡ argument_read s.now (map span_of variables.now) p e }
{
    if is_word(s, p, e, b"_") {
        return Ok(Parameter { tag: 0, number: 0 });
    }
    if text::peek(s, p) == Some(b'=') {
        return match words::number_of(s, p + 1, e) {
            Some(number) => Ok(Parameter { tag: 2, number }),
            None => Err(Refusal::BadLine(p)),
        };
    }
    words::name_told(s, p, e)?;
    match lookup::find(s, variables, p, e) {
        Some(v) => Ok(Parameter {
            tag: 1,
            number: v as u32,
        }),
        None => Err(Refusal::Undeclared(p)),
    }
}

// Argument words from p on, behind those that y holds.
fn arguments_from(s: &[u8], t: Table, y: Symbol, p: usize) -> Result<ArgumentsRead, Refusal>
    requires { Ready s.now t × (y ≡ symbol_of (view_symbol y)) × (y.count ≤ parameter_limit) × (p ≤ length s.now) }
    ensures { result ≡ arguments_read y.kind (Lines.arguments_from s.now (view_table t).variables
        (parameter_limit - y.count) (view_symbol y).parameters p) }
{
    let q = text::next_word(s, p)?;
    if q == p {
        return Ok(ArgumentsRead {
            place: p + 1,
            symbol: y,
        });
    }
    let count = y.count;
    if table::PARAMETERS <= count {
        return Err(Refusal::AboveLimit(q));
    }
    let e = text::word_end(s, q);
    let word = argument(s, &t.names[..t.variables], q, e)?;
    let mut more = y;
    more.parameters[count] = word;
    more.count = count + 1;
    arguments_from(s, t, more, e)
}

// KIND and ARGS behind the name, which ends at p.
fn kind_from(s: &[u8], t: Table, name: Name, p: usize) -> Result<SymbolRead, Refusal>
    requires { Ready s.now t × (p ≤ length s.now) }
    ensures { result ≡ symbol_read (Lines.kind_from s.now (view_table t).variables (span_of name) p) }
{
    let q = text::want_word(s, p)?;
    let e = text::word_end(s, q);
    let Some(kind) = words::kind_of(s, q, e) else {
        return Err(Refusal::BadLine(q));
    };
    let mut y = table::no_symbol();
    y.kind = kind;
    let r = arguments_from(s, t, y, e)?;
    Ok(SymbolRead {
        place: r.place,
        name,
        symbol: r.symbol,
    })
}

// The line `sym NAME KIND ARGS` behind the word `sym`, which ends at p.
fn symbol_from(s: &[u8], t: Table, p: usize) -> Result<SymbolRead, Refusal>
    requires { Ready s.now t × (p ≤ length s.now) }
    ensures { result ≡ symbol_read (Lines.symbol_from s.now (view_table t) p) }
{
    let q = text::want_word(s, p)?;
    let e = text::word_end(s, q);
    let to = t.variables + t.count;
    let name = new_name(s, &t.names[..to], q, e)?;
    kind_from(s, t, name, e)
}

// Refused for that reason, with the table so far.
fn refused(refusal: Refusal, table: Table) -> Result<LinesRead, LinesRefused>
    ensures { result ≡ Err (record { refusal = refusal; table = table }) }
{
    Err(LinesRefused { refusal, table })
}

// `sym` lines from p on, up to the word `match`, behind which the place to go on from lies.
fn lines_from(s: &[u8], t: Table, p: usize) -> Result<LinesRead, LinesRefused>
    requires { Ready s.now t × (p ≤ length s.now) }
    ensures { result ≡ lines_read (Lines.lines_from s.now (symbol_limit - t.count) (view_table t) p) }
{
    let e = text::word_end(s, p);
    let count = t.count;
    if is_word(s, p, e, b"match") {
        if count == 0 {
            return refused(Refusal::BadLine(p), t);
        }
        return Ok(LinesRead { place: e, table: t });
    }
    if !is_word(s, p, e, b"sym") {
        return refused(Refusal::BadLine(p), t);
    }
    if table::SYMBOLS <= count {
        return refused(Refusal::AboveLimit(p), t);
    }
    let r = match symbol_from(s, t, e) {
        Ok(r) => r,
        Err(refusal) => return refused(refusal, t),
    };
    let more = table::with_symbol(t, r.name, r.symbol);
    lines_from(s, more, r.place)
}

// All lines before the pattern.
pub fn lines_of(s: &[u8]) -> Result<LinesRead, LinesRefused>
    ensures { result ≡ lines_read (Lines.lines_of s.now) }
{
    let none = table::no_table();
    let e = text::word_end(s, 0);
    if !is_word(s, 0, e, b"vars") {
        return refused(Refusal::BadLine(0), none);
    }
    match variables_from(s, none, e) {
        Ok(v) => lines_from(s, v.table, v.place),
        Err(refusal) => refused(refusal, none),
    }
}
