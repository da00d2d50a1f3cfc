// The text of a book: its variables, its symbols, and its pattern, every node in parentheses. For the programs that read it. What does not
// fit is left out, and the reader then refuses the text.
ghost use Rattle.std.specs.Prelude.{◌≤◌, length};

use arrayvec::ArrayVec;
use trial::{Book, Node, Parameter, SYMBOLS, Symbol, VARIABLES};

// The longest text.
const TEXT_BYTES: usize = 4096;

type Bytes = ArrayVec<u8, TEXT_BYTES>;

// The names.
const VARIABLE_NAMES: [u8; VARIABLES] = *b"abcd";

const SYMBOL_NAMES: [u8; SYMBOLS] = *b"pqrs";

pub fn text(book: &Book) -> Bytes {
    let mut text = ArrayVec::new();
    variables(&mut text, book.variables);
    for (name, symbol) in SYMBOL_NAMES.iter().zip(&book.symbols) {
        if let Some(symbol) = symbol {
            line(&mut text, *name, symbol);
        }
    }
    extend(&mut text, b"match ");
    pattern(&mut text, up_to(&book.nodes, book.root));
    push(&mut text, b'\n');
    text
}

// A byte more, and some: what does not fit is left out.
fn push(text: &mut Bytes, byte: u8) {
    let _ = text.try_push(byte);
}

fn extend(text: &mut Bytes, bytes: &[u8]) {
    for byte in bytes {
        push(text, *byte);
    }
}

fn variables(text: &mut Bytes, count: usize) {
    extend(text, b"vars");
    for name in VARIABLE_NAMES.iter().take(count) {
        push(text, b' ');
        push(text, *name);
    }
    push(text, b'\n');
}

// The line of a symbol.
fn line(text: &mut Bytes, name: u8, symbol: &Symbol) {
    extend(text, b"sym ");
    push(text, name);
    push(text, b' ');
    push(text, digit(symbol.kind));
    for parameter in symbol.parameters.iter().take(usize::from(symbol.count)) {
        push(text, b' ');
        written(text, *parameter);
    }
    push(text, b'\n');
}

fn written(text: &mut Bytes, parameter: Parameter) {
    match parameter {
        Parameter::Ignored => push(text, b'_'),
        Parameter::Variable(v) => push(text, VARIABLE_NAMES[v % VARIABLES]),
        Parameter::Fixed(n) => {
            push(text, b'=');
            push(text, digit(n));
        }
    }
}

fn digit(n: u8) -> u8 {
    b'0' + n % 10
}

// The nodes up to one, which stands last.
fn up_to(nodes: &[Node], k: usize) -> &[Node]
    ensures { length result.now ≤ length nodes.now }
{
    if k < nodes.len() {
        &nodes[..k + 1]
    } else {
        nodes
    }
}

// The last of the nodes.
fn pattern(text: &mut Bytes, nodes: &[Node]) {
    let Some((node, before)) = nodes.split_last() else {
        return;
    };
    push(text, b'(');
    match *node {
        Node::Symbol(s) => push(text, SYMBOL_NAMES[s % SYMBOLS]),
        Node::Sequence(a, b) => {
            pattern(text, up_to(before, a));
            push(text, b' ');
            pattern(text, up_to(before, b));
        }
        Node::Alternation(a, b) => {
            pattern(text, up_to(before, a));
            push(text, b'|');
            pattern(text, up_to(before, b));
        }
        Node::Star(a) | Node::Plus(a) | Node::Optional(a) => pattern(text, up_to(before, a)),
    }
    push(text, b')');
    match *node {
        Node::Star(_) => push(text, b'*'),
        Node::Plus(_) => push(text, b'+'),
        Node::Optional(_) => push(text, b'?'),
        _ => {}
    }
}
