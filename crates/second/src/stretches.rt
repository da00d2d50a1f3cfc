// Which stretches of the events that concern a valuation are words of the pattern: the ends of those of a node that start at an event,
// as bits, by node and start. A node is made of earlier ones, and of itself from a later start on. For the second matcher.
use crate::concern;
use trial::{EVENTS, Event, NODES, Node, SYMBOLS, Trial, Values};

// Starts of a stretch, the last behind all events.
const STARTS: usize = EVENTS + 1;

// The ends of stretches by their start.
type Ends = [u32; STARTS];

const NONE: Ends = [0; STARTS];

// The ends of words of the pattern, from any start.
pub fn ends(trial: &Trial, number: usize) -> u32 {
    let values = trial.book.values(number);
    let mut symbols = [NONE; SYMBOLS];
    for (s, ends) in symbols.iter_mut().enumerate() {
        *ends = symbol(trial, &values, s);
    }
    nodes(trial, &symbols)
}

// Those of the root, after those of all nodes before it.
fn nodes(trial: &Trial, symbols: &[Ends]) -> u32 {
    let mut before = [NONE; NODES];
    for k in 0..NODES {
        before[k] = node(trial.book.nodes[k], symbols, &before);
    }
    before
        .get(trial.book.root)
        .map_or(0, |ends| ends.iter().fold(0, |all, x| all | x))
}

// A symbol from each start on: the next event that was accepted and concerns the valuation, if the symbol holds on it.
fn symbol(trial: &Trial, values: &Values, s: usize) -> Ends {
    let mut ends = NONE;
    let symbol = trial.book.symbols.get(s).and_then(|s| s.as_ref());
    for i in (0..EVENTS).rev() {
        ends[i] = match seen(trial, values, i) {
            None => ends[i + 1],
            Some(event) if concern::holds(symbol, event, values) => 2 << i,
            Some(_) => 0,
        };
    }
    ends
}

// Event number i of the run, if it was accepted and concerns the valuation.
fn seen<'a>(trial: &'a Trial, values: &Values, i: usize) -> Option<&'a Event> {
    let event = trial.event(i)?;
    if event.accepted && concern::concerns(trial, event, values) {
        Some(event)
    } else {
        None
    }
}

// A node from each start on, the last first: what stands for a start behind the last has no ends.
fn node(node: Node, symbols: &[Ends], nodes: &[Ends]) -> Ends {
    let mut own = NONE;
    for i in (0..STARTS).rev() {
        own[i] = match node {
            Node::Symbol(s) => from(symbols, s, i),
            Node::Sequence(a, b) => through(nodes.get(b).unwrap_or(&NONE), from(nodes, a, i)),
            Node::Alternation(a, b) => from(nodes, a, i) | from(nodes, b, i),
            Node::Star(a) => 1 << i | repeated(&own, from(nodes, a, i)),
            Node::Plus(a) => repeated(&own, from(nodes, a, i)),
            Node::Optional(a) => 1 << i | from(nodes, a, i),
        };
    }
    own
}

// The ends of one of several from a start on.
fn from(ends: &[Ends], k: usize, start: usize) -> u32 {
    match ends.get(k) {
        Some(ends) => ends.get(start).copied().unwrap_or(0),
        None => 0,
    }
}

// The ends of a part, or of the node itself from these on.
fn repeated(own: &Ends, part: u32) -> u32 {
    part | through(own, part)
}

// The ends from some of the starts on.
fn through(ends: &Ends, starts: u32) -> u32 {
    let mut all = 0;
    for (i, x) in ends.iter().enumerate() {
        if starts >> i & 1 == 1 {
            all |= x;
        }
    }
    all
}
