// The book in a block of lent words: taken out of any words, and put into them. For the lent calls. Functions take slices, so that a part of a
// longer slice can be lent.
#![tactic(auto)]

ghost use Rattle.std.specs.Prelude.{◌≡◌, true, map, ◌*◌, ◌≤◌, length, take};
ghost use Rattle.laws.specs.Lists.{all, gather};
ghost use Rattle.laws.specs.Parts.{front};
ghost use Rattle.pattern.specs.Positions.{occurrence_limit};
ghost use Rattle.meaning.specs.Limits.{symbol_limit, parameter_limit};
ghost use Rattle.table.specs.Tables.{names_limit};
ghost use Rattle.blocks.specs.Groups.{groups};
ghost use Rattle.blocks.specs.BookBlock.{name_size, parameter_size, symbol_size, book_size};
ghost use Rattle.blocks.specs.BookBlock.{name_in, parameter_in, symbol_in, book_held, book_in};
ghost use Rattle.blocks.specs.BookBlock.{name_words, parameter_words, symbol_words, book_head, book_words};
ghost use Rattle.book_block.specs.Fits.{name_fits, symbol_fits, book_fits};

use book::Book;
use piece::POSITIONS;
use table::{NAMES, Name, PARAMETERS, Parameter, SYMBOLS, Symbol};

// The number of the layout, the first word.
pub const LAYOUT: u32 = 1001;

// The words of a name, a parameter and a symbol, and where the parts of a book begin.
const NAME: usize = 2;

const PARAMETER: usize = 2;

const SYMBOL: usize = 2 + PARAMETERS * PARAMETER;

const NAMES_FROM: usize = 7;

const TABLE_FROM: usize = NAMES_FROM + NAMES * NAME;

const OCCURRENCES_FROM: usize = TABLE_FROM + SYMBOLS * SYMBOL;

const FOLLOWS_FROM: usize = OCCURRENCES_FROM + POSITIONS;

pub const WORDS: usize = FOLLOWS_FROM + POSITIONS;

fn name_in(words: &[u32]) -> Name
    requires { name_size ≤ length words.now }
    ensures { result ≡ name_in words.now }
{
    Name {
        start: words[0] as usize,
        size: words[1] as usize,
    }
}

fn names_in(words: &[u32]) -> [Name; NAMES]
    requires { names_limit * name_size ≤ length words.now }
    ensures { result ≡ map name_in (groups name_size names_limit words.now) }
{
    let none = Name { start: 0, size: 0 };
    let mut names = [none; NAMES];
    for i in 0..NAMES {
        names[i] = name_in(&words[NAME * i..NAME * i + NAME]);
    }
    names
}

fn parameter_in(words: &[u32]) -> Parameter
    requires { parameter_size ≤ length words.now }
    ensures { result ≡ parameter_in words.now }
{
    Parameter {
        tag: words[0],
        number: words[1],
    }
}

fn parameters_in(words: &[u32]) -> [Parameter; PARAMETERS]
    requires { parameter_limit * parameter_size ≤ length words.now }
    ensures { result ≡ map parameter_in (groups parameter_size parameter_limit words.now) }
{
    let none = Parameter { tag: 0, number: 0 };
    let mut parameters = [none; PARAMETERS];
    for i in 0..PARAMETERS {
        parameters[i] = parameter_in(&words[PARAMETER * i..PARAMETER * i + PARAMETER]);
    }
    parameters
}

fn symbol_in(words: &[u32]) -> Symbol
    requires { symbol_size ≤ length words.now }
    ensures { result ≡ symbol_in words.now }
{
    Symbol {
        kind: words[0],
        count: words[1] as usize,
        parameters: parameters_in(&words[2..]),
    }
}

fn table_in(words: &[u32]) -> [Symbol; SYMBOLS]
    requires { symbol_limit * symbol_size ≤ length words.now }
    ensures { result ≡ map symbol_in (groups symbol_size symbol_limit words.now) }
{
    let none = table::no_symbol();
    let mut symbols = [none; SYMBOLS];
    for i in 0..SYMBOLS {
        symbols[i] = symbol_in(&words[SYMBOL * i..SYMBOL * i + SYMBOL]);
    }
    symbols
}

// A number for each position.
fn numbers_in(words: &[u32]) -> [u32; POSITIONS]
    requires { occurrence_limit ≤ length words.now }
    ensures { result ≡ take occurrence_limit words.now }
{
    let mut numbers = [0; POSITIONS];
    numbers.copy_from_slice(&words[..POSITIONS]);
    numbers
}

// The book in words of this layout.
fn held(words: &[u32]) -> Book
    requires { length words.now ≡ book_size }
    ensures { result ≡ book_held words.now }
{
    Book {
        variables: words[1] as usize,
        symbols: words[2] as usize,
        names: names_in(&words[NAMES_FROM..]),
        table: table_in(&words[TABLE_FROM..]),
        positions: words[3] as usize,
        occurrences: numbers_in(&words[OCCURRENCES_FROM..]),
        begins: words[4],
        ends: words[5],
        follows: numbers_in(&words[FOLLOWS_FROM..]),
        empty: words[6] != 0,
    }
}

// The book in any words: the empty one, which is unsound, where the layout is another.
pub fn book_in(words: &[u32]) -> Book
    requires { length words.now ≡ book_size }
    ensures { result ≡ book_in words.now }
{
    if words[0] == LAYOUT {
        held(words)
    } else {
        book::empty_book()
    }
}

fn put_name(words: &mut [u32], x: Name)
    requires { (name_size ≤ length words.old) × (name_fits x ≡ true) }
    ensures { words.new ≡ front (name_words x) words.old }
{
    words[0] = x.start as u32;
    words[1] = x.size as u32;
}

fn put_names(words: &mut [u32], names: [Name; NAMES])
    requires { (names_limit * name_size ≤ length words.old) × (all name_fits names ≡ true) }
    ensures { words.new ≡ front (gather name_words names) words.old }
{
    for i in 0..NAMES {
        put_name(&mut words[NAME * i..], names[i]);
    }
}

fn put_parameter(words: &mut [u32], p: Parameter)
    requires { parameter_size ≤ length words.old }
    ensures { words.new ≡ front (parameter_words p) words.old }
{
    words[0] = p.tag;
    words[1] = p.number;
}

fn put_parameters(words: &mut [u32], parameters: [Parameter; PARAMETERS])
    requires { parameter_limit * parameter_size ≤ length words.old }
    ensures { words.new ≡ front (gather parameter_words parameters) words.old }
{
    for i in 0..PARAMETERS {
        put_parameter(&mut words[PARAMETER * i..], parameters[i]);
    }
}

fn put_symbol(words: &mut [u32], y: Symbol)
    requires { (symbol_size ≤ length words.old) × (symbol_fits y ≡ true) }
    ensures { words.new ≡ front (symbol_words y) words.old }
{
    words[0] = y.kind;
    words[1] = y.count as u32;
    put_parameters(&mut words[2..], y.parameters);
}

fn put_table(words: &mut [u32], symbols: [Symbol; SYMBOLS])
    requires { (symbol_limit * symbol_size ≤ length words.old) × (all symbol_fits symbols ≡ true) }
    ensures { words.new ≡ front (gather symbol_words symbols) words.old }
{
    for i in 0..SYMBOLS {
        put_symbol(&mut words[SYMBOL * i..], symbols[i]);
    }
}

// The words before the names.
fn put_head(words: &mut [u32], b: Book)
    requires { (length words.old ≡ book_size) × (book_fits b ≡ true) }
    ensures { words.new ≡ front (book_head b) words.old }
{
    words[0] = LAYOUT;
    words[1] = b.variables as u32;
    words[2] = b.symbols as u32;
    words[3] = b.positions as u32;
    words[4] = b.begins;
    words[5] = b.ends;
    words[6] = b.empty as u32;
}

// A book over all words of a block.
pub fn put_book(words: &mut [u32], b: Book)
    requires { (length words.old ≡ book_size) × (book_fits b ≡ true) }
    ensures { words.new ≡ book_words b }
{
    put_head(words, b);
    put_names(&mut words[NAMES_FROM..], b.names);
    put_table(&mut words[TABLE_FROM..], b.table);
    blocks::copy(&b.occurrences, &mut words[OCCURRENCES_FROM..]);
    blocks::copy(&b.follows, &mut words[FOLLOWS_FROM..]);
}
