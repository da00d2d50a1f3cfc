// A random book: how many variables, over which domain; symbols of few kinds and counts, so that several match one event, a place
// ignored, a variable, which may stand twice, or a fixed number; and a pattern as nodes, each made of earlier ones. For `trial_with`.
use crate::{ARGUMENT, FIRST_NODE, FIRST_SYMBOL, KIND, PLACES, draw, small};
use std::array;
use trial::{Book, NODES, Node, Parameter, SYMBOLS, Symbol};

// One book in so many is a gathering one; of the places without a variable one in so many is a number, of those that are in every domain;
// kinds of nodes; nodes that may be the last.
const GATHERING_IN: usize = 8;

const FIXED_IN: usize = 2;

const NUMBER_COUNT: u8 = 3;

const NODE_KINDS: usize = 8;

const ROOTS: usize = 10;

// Draws that are for no place of a trial.
const KIND_OF_BOOK: usize = 1000;

const VARIABLES: usize = 1001;

const SYMBOL_COUNT: usize = 1002;

const ROOT: usize = 1003;

const COUNTS: usize = 1100;

const KINDS: usize = 1200;

const FIRSTS: usize = 1300;

const SECONDS: usize = 1400;

const FIXED: usize = 1500;

const NUMBERS: usize = 1600;

// By the number of variables: the largest value, and how many valuations there are then.
const FAMILIES: [(u8, usize); 5] = [(2, 1), (9, 10), (9, 100), (2, 27), (2, 81)];

pub fn gathering(seed: u64) -> bool {
    draw(seed, KIND_OF_BOOK, GATHERING_IN) == 0
}

fn variables(seed: u64) -> usize {
    if gathering(seed) {
        2
    } else {
        draw(seed, VARIABLES, FAMILIES.len())
    }
}

// The largest value of the book's domain.
pub fn largest(seed: u64) -> u8 {
    FAMILIES[variables(seed) % FAMILIES.len()].0
}

pub fn book(seed: u64) -> Book {
    let variables = variables(seed) % FAMILIES.len();
    let (largest, valuations) = FAMILIES[variables];
    let drawn = Book {
        variables,
        largest,
        valuations,
        symbols: array::from_fn(|s| symbol(seed, variables, s)),
        nodes: array::from_fn(|k| node(seed, k)),
        root: draw(seed, ROOT, ROOTS) + 1,
    };
    if gathering(seed) {
        gathered(drawn)
    } else {
        drawn
    }
}

// Every eighth book is one in which partial matches gather exclusions: `open seal`, where `fill` shares open's variable and seal's
// both. A fourth symbol, which the pattern does not name, is as drawn.
fn gathered(mut book: Book) -> Book {
    book.symbols[0] = Some(shared(1, 1));
    book.symbols[1] = Some(shared(1, 2));
    book.symbols[2] = Some(shared(2, 2));
    book.nodes[0] = Node::Symbol(0);
    book.nodes[1] = Node::Symbol(2);
    book.nodes[2] = Node::Sequence(0, 1);
    book.root = 2;
    book
}

// A symbol with the first variables.
fn shared(kind: u8, count: u8) -> Symbol {
    Symbol {
        kind,
        count,
        parameters: array::from_fn(|i| {
            if i < usize::from(count) {
                Parameter::Variable(i)
            } else {
                Parameter::Ignored
            }
        }),
    }
}

fn symbol_count(seed: u64) -> usize {
    draw(seed, SYMBOL_COUNT, SYMBOLS) + 1
}

fn symbol(seed: u64, variables: usize, s: usize) -> Option<Symbol> {
    if symbol_count(seed) <= s {
        return None;
    }
    let at = FIRST_SYMBOL + s % SYMBOLS;
    let count = small(seed, COUNTS + at, crate::COUNTS);
    Some(Symbol {
        kind: small(seed, at * PLACES + KIND, crate::KINDS) % crate::KINDS + 1,
        count,
        parameters: array::from_fn(|i| {
            if i < usize::from(count) {
                parameter(seed, variables, at * PLACES + ARGUMENT + i)
            } else {
                Parameter::Ignored
            }
        }),
    })
}

// A variable, or none, and then it is ignored or a number. No place is taken from a variable, so that no fewer books bind all of theirs.
fn parameter(seed: u64, variables: usize, place: usize) -> Parameter {
    let place = place % 64;
    match draw(seed, place, variables.saturating_add(1)).checked_sub(1) {
        Some(v) => Parameter::Variable(v),
        None if draw(seed, FIXED + place, FIXED_IN) != 0 => Parameter::Ignored,
        None => Parameter::Fixed(small(seed, NUMBERS + place, NUMBER_COUNT)),
    }
}

// A node by its kind: the first two are symbols. Of the others the first part is one of the last two nodes, and the second any earlier one.
fn node(seed: u64, k: usize) -> Node {
    let k = k % NODES;
    let at = FIRST_NODE + k;
    let symbol = draw(seed, FIRSTS + at, symbol_count(seed));
    if k < 2 {
        return Node::Symbol(symbol);
    }
    let first = k - 1 - draw(seed, FIRSTS + at, 2) % 2;
    let second = draw(seed, SECONDS + at, k) % ROOTS;
    match draw(seed, KINDS + at, NODE_KINDS) {
        1 => Node::Sequence(first, second),
        2 => Node::Alternation(first, second),
        3 => Node::Star(first),
        4 => Node::Plus(first),
        5 => Node::Optional(first),
        _ => Node::Symbol(symbol),
    }
}
