// Every text that is one edit away from some books, and texts with two edits drawn at random, go to the reader and to the second reader:
// numbers and places are compared, where one of the names was declared, and every symbol. Prints how many there were, and the first differences.
#![tactic(auto)]

use book::{Book, ReadingAnswer};
use noted::Notes;
use noted::declared::{self, Argument};
use std::{fmt, io};
use table::{Parameter, Symbol};
use variants::{BASES, KINDS, Kind, Text};

// Long texts have so many bytes, less one.
const SHORTEST: usize = 4085;

const LONGEST: usize = 4105;

// Texts with a number of many zeros: few of them, each once, and then so many that the text is about as long as a text may be.
const FEW_ZEROS: usize = 100;

const MANY_ZEROS: usize = 4060;

const MOST_ZEROS: usize = 4080;

// Texts with two edits; differences that are printed; names that are asked for, one of them by each text.
const PAIRS: u64 = 100000;

const PRINTED: u32 = 10;

const NAMES: usize = 21;

// The answers to a text.
const ANSWERS: usize = 9;

// What a reader says of a text: the number of its answer, 0 where it is accepted, and the place beside it.
#[derive(Clone, Copy, PartialEq, Eq)]
struct Verdict {
    number: usize,
    place: usize,
}

impl Verdict {
    fn of(answer: ReadingAnswer) -> Verdict {
        Verdict {
            number: book::number_of(answer),
            place: book::place_of(answer),
        }
    }

    fn second(notes: &Notes<'_>) -> Verdict {
        match notes.least {
            None => Verdict {
                number: 0,
                place: 0,
            },
            Some(fault) => Verdict {
                number: fault.number,
                place: fault.place,
            },
        }
    }
}

impl fmt::Display for Verdict {
    fn fmt<W: fmt::Write>(&self, f: &mut fmt::Formatter<W>) -> fmt::Result {
        let number = self.number;
        let place = self.place;
        write!(f, "{number} at {place}")
    }
}

// The texts by their answers, all of them, and the differences.
#[derive(Drop)]
struct Score {
    answered: [u32; ANSWERS],
    texts: usize,
    differences: u32,
}

impl Score {
    fn count(&mut self, number: usize) {
        if let Some(n) = self.answered.get_mut(number) {
            *n = n.saturating_add(1);
        }
        self.texts = self.texts.saturating_add(1);
    }

    fn report(&self, rt: &impl Print) -> io::Result<()> {
        let texts = self.texts;
        let differences = self.differences;
        println!(rt; "{texts} texts")?;
        for (number, n) in self.answered.iter().enumerate() {
            println!(rt; "{n} answered {number}")?;
        }
        println!(rt; "{differences} differences")
    }
}

fn main(rt: HostRuntime) -> io::Result<()> {
    let mut score = Score {
        answered: [0; ANSWERS],
        texts: 0,
        differences: 0,
    };
    longs(&rt, &mut score)?;
    numbers(&rt, &mut score)?;
    for base in BASES {
        singles(&rt, base.as_bytes(), &mut score)?;
    }
    pairs(&rt, &mut score)?;
    score.report(&rt)
}

// Texts about as long as a text may be.
fn longs(rt: &impl Print, score: &mut Score) -> io::Result<()> {
    let mut text = Text::new();
    for size in SHORTEST..LONGEST {
        variants::spaces(size, &mut text);
        compared(rt, text.as_slice(), score)?;
    }
    Ok(())
}

// Numbers with zeros.
fn numbers(rt: &impl Print, score: &mut Score) -> io::Result<()> {
    let mut text = Text::new();
    for count in (0..FEW_ZEROS).chain(MANY_ZEROS..MOST_ZEROS) {
        variants::zeros(count, &mut text);
        compared(rt, text.as_slice(), score)?;
    }
    Ok(())
}

// Every edit of one base text.
fn singles(rt: &impl Print, text: &[u8], score: &mut Score) -> io::Result<()> {
    let mut edited = Text::new();
    for place in 0..=text.len() {
        for n in 0..KINDS {
            variants::edited(text, Kind::numbered(n), place, &mut edited);
            compared(rt, edited.as_slice(), score)?;
        }
    }
    Ok(())
}

fn pairs(rt: &impl Print, score: &mut Score) -> io::Result<()> {
    let mut once = Text::new();
    let mut twice = Text::new();
    for i in 0..PAIRS {
        let base = BASES[draws::below(i, 0, BASES.len() as u64) as usize];
        drawn(i, 1, base.as_bytes(), &mut once);
        drawn(i, 4, once.as_slice(), &mut twice);
        compared(rt, twice.as_slice(), score)?;
    }
    Ok(())
}

// The text with an edit, the first or the second of pair number i, by three draws from k on: in the pattern more often than before it.
fn drawn(i: u64, k: u32, text: &[u8], out: &mut Text) {
    let k = u64::from(k);
    let size = text.len() as u64;
    let kind = draws::below(i, k, KINDS as u64) as usize;
    let from = draws::below(i, k + 1, size);
    let place = draws::below(i, k + 2, size);
    let at = from.max(place) as usize;
    variants::edited(text, Kind::numbered(kind), at, out);
}

// One text goes to both readers, and one of its names is asked for.
fn compared(rt: &impl Print, text: &[u8], score: &mut Score) -> io::Result<()> {
    let reading = reader::read(text);
    let notes = scanner::read(text);
    let first = Verdict::of(reading.answer);
    let second = Verdict::second(&notes);
    score.count(first.number);
    let alike = named(text, &notes, score.texts % NAMES) && books_alike(&reading.book, &notes);
    if first != second || !alike {
        if score.differences < PRINTED {
            told(rt, text, first, second)?;
        }
        score.differences = score.differences.saturating_add(1);
    }
    Ok(())
}

// Whether the name with a number is the part of the text where the second reader found it declared.
fn named(text: &[u8], notes: &Notes<'_>, number: usize) -> bool {
    let place = reader::name_place(text, number);
    let name = reader::name(text, number);
    let (start, bytes): (usize, &[u8]) = match notes.name(number) {
        None => (0, &[]),
        Some(word) => (word.start, word.bytes),
    };
    place.start == start && place.size == bytes.len() && name == bytes
}

// Whether what the book has of each symbol is what the second reader noted of its name; a refused text gives the empty book.
fn books_alike(book: &Book, notes: &Notes<'_>) -> bool {
    let (variables, symbols): (usize, &[declared::Symbol<'_>]) = match notes.least {
        None => (notes.variables.len(), notes.symbols.as_slice()),
        Some(_) => (0, &[]),
    };
    book.variables == variables
        && book.symbols == symbols.len()
        && symbols_alike(&book.table, symbols)
}

// Places behind the last symbol are as a symbol of which nothing was noted.
fn symbols_alike(table: &[Symbol], symbols: &[declared::Symbol<'_>]) -> bool {
    let nothing = declared::Symbol::default();
    table.iter().enumerate().all(|(i, y)| symbol_alike(y, symbols.get(i).unwrap_or(&nothing)))
}

fn symbol_alike(y: &Symbol, s: &declared::Symbol<'_>) -> bool {
    y.kind == u32::from(s.kind)
        && y.count == s.arguments.len()
        && parameters_alike(&y.parameters, s.arguments.as_slice())
}

// Those behind the last are as those that are ignored.
fn parameters_alike(parameters: &[Parameter], arguments: &[Argument]) -> bool {
    parameters.iter().enumerate().all(|(i, p)| parameter_alike(
        p,
        arguments.get(i).copied().unwrap_or(Argument::Ignored),
    ))
}

fn parameter_alike(p: &Parameter, argument: Argument) -> bool {
    match argument {
        Argument::Ignored => p.tag == 0 && p.number == 0,
        Argument::Variable(v) => p.tag == 1 && p.number as usize == v,
        Argument::Fixed(n) => p.tag == 2 && p.number == n,
    }
}

// A difference: what the two readers answer (where they agree it is a name that differs, or a symbol), and the text.
fn told(rt: &impl Print, text: &[u8], first: Verdict, second: Verdict) -> io::Result<()> {
    println!(rt; "{first} the reader, {second} the second reader, of the text")?;
    rt.write_all(text)?;
    rt.println("")
}
