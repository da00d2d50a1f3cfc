// A random trial: a book with its pattern as a tree, and events with their records and what has been answered to them. For `invented`,
// which draws it, and `second`, which matches it from the whole trace.
#![tactic(auto)]

use record::RECORD;

pub const VARIABLES: usize = 4;

pub const SYMBOLS: usize = 4;

pub const ARGUMENTS: usize = 4;

pub const NODES: usize = 12;

pub const EVENTS: usize = 20;

// As many valuations as a book has at most.
pub const VALUATIONS: usize = 100;

// The buffer that is lent for rows.
pub const BUFFER_BYTES: usize = 4096;

// A value for each variable; 0 for those that a book does not have.
pub type Values = [u8; VARIABLES];

// What a symbol asks of an argument.
#[derive(Clone, Copy)]
pub enum Parameter {
    Ignored,
    Variable(usize),
    Fixed(u8),
}

impl Parameter {
    // A fixed number asks the same of every valuation.
    fn agrees(self, argument: u8, values: &Values) -> bool {
        match self {
            Parameter::Ignored => true,
            Parameter::Variable(v) => values.get(v) == Some(&argument),
            Parameter::Fixed(n) => n == argument,
        }
    }
}

// The parameters behind the last are as those that are ignored.
#[derive(Clone, Copy)]
pub struct Symbol {
    pub kind: u8,
    pub count: u8,
    pub parameters: [Parameter; ARGUMENTS],
}

impl Symbol {
    // Whether it holds on an event under a valuation.
    pub fn holds(&self, event: &Event, values: &Values) -> bool {
        self.kind == event.kind
            && self.count == event.count
            && (self.parameters.iter().zip(&event.arguments)).all(|(p, a)| p.agrees(*a, values))
    }
}

// A node of the pattern, whose parts are symbols by their number or earlier nodes.
#[derive(Clone, Copy)]
pub enum Node {
    Symbol(usize),
    Sequence(usize, usize),
    Alternation(usize, usize),
    Star(usize),
    Plus(usize),
    Optional(usize),
}

// The values are 0 to the largest; valuations are numbered from 0. The pattern is the node that is the root.
#[derive(Clone, Copy)]
pub struct Book {
    pub variables: usize,
    pub largest: u8,
    pub valuations: usize,
    pub symbols: [Option<Symbol>; SYMBOLS],
    pub nodes: [Node; NODES],
    pub root: usize,
}

impl Book {
    // The valuation with a number: its digits to the base of the domain, the first variable's the highest.
    pub fn values(&self, number: usize) -> Values {
        let base = usize::from(self.largest) + 1;
        let mut values = [0; VARIABLES];
        let mut rest = number;
        for v in (0..VARIABLES).rev() {
            if v < self.variables {
                values[v] = (rest % base) as u8;
                rest /= base;
            }
        }
        values
    }
}

// An event with its record, and the place of its rows. `accepted` says what was answered to the record last; it is sent without its last byte where
// it is short, and without one more where it is cut, as it is once its refusal was known.
#[derive(Clone, Copy)]
pub struct Event {
    pub kind: u8,
    pub count: u8,
    pub arguments: [u8; ARGUMENTS],
    pub record: [u8; RECORD],
    pub short: bool,
    pub place: usize,
    pub accepted: bool,
    pub cut: bool,
}

impl Event {
    // The record as it is sent.
    pub fn sent(&self) -> &[u8] {
        &self.record[..RECORD - usize::from(self.short) - usize::from(self.cut)]
    }
}

// The book's number is for where it is one of a set. A run has the events in an order; what the second matcher lists is, for each valuation, after which
// events it does, a bit to each, if it has been asked.
#[derive(Clone, Copy)]
pub struct Trial {
    pub book: Book,
    pub number: u8,
    pub events: [Event; EVENTS],
    pub order: [usize; EVENTS],
    pub listed: Option<[u32; VALUATIONS]>,
}

impl Trial {
    // Event number i of a run.
    pub fn event(&self, i: usize) -> Option<&Event> {
        self.events.get(*self.order.get(i)?)
    }

    // Neighbours in the order exchanged: event number i of a run and the next.
    pub fn exchange(&mut self, i: usize) {
        if i < EVENTS - 1 {
            self.order.swap(i, i + 1);
        }
    }
}
