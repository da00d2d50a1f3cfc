// The books of a random set: those of trials one after another whose texts are accepted, and which can have the events of the first. For the runs of a set.
use lent_set::{BOOK_WORDS, BOOKS};
use trial::{Event, Trial};

// How many trials are looked through for a set, and how far apart the first trials of two sets are. Trials 2m and 2m + 1 have the same book: in some sets
// books stand twice. A bound of the sets, so that sums need no proof.
const CANDIDATES: u64 = 192;

const APART: u64 = 256;

const SETS: u64 = 65536;

// The values of a book in which exclusions gather.
const VALUES: usize = 10;

// So many books, of a number of places: their trials, all with the events of the first, and behind them any; and the words of the books, then
// zeros. `trials` and `trials_mut` give those that count.
#[derive(Clone, Copy)]
pub struct SetOf<const N: usize> {
    pub count: usize,
    pub places: [Trial; N],
    pub books: [[u32; BOOK_WORDS]; BOOKS],
}

// With places for as many books as a call takes.
pub type Set = SetOf<BOOKS>;

impl Set {
    // Set number i.
    pub fn chosen(i: u64) -> Set {
        let most = (i % (BOOKS as u64)) as usize + 1;
        let mut first: u64 = 0;
        let mut set = Set {
            count: 0,
            places: [invented::trial(i); BOOKS],
            books: [[0; BOOK_WORDS]; BOOKS],
        };
        for c in 0..CANDIDATES {
            if set.count == most {
                break;
            }
            let j = candidate(i, c);
            if set.count == 0 {
                first = j;
            }
            if set.wants(i, j) {
                set.add(j, first);
            }
        }
        set
    }

    // In every second set exclusions gather, so that some events have no room.
    fn wants(&self, i: u64, j: u64) -> bool {
        0 < self.count || i % 2 == 0 || invented::gathering(j)
    }

    // The book of trial number j, with the events of trial number first, if it can be: its values are up to those of the first book.
    fn add(&mut self, j: u64, first: u64) {
        let mut trial = invented::trial_with(j, first);
        let largest = self.trials().first().map_or(0, |t| t.book.largest);
        if trial.book.variables != 0 && trial.book.largest < largest {
            return;
        }
        narrow(first, &mut trial.events);
        invented::records(first, &mut trial.events);
        let text = invented::text(&trial.book);
        let k = self.count % BOOKS;
        if is_read(&text, &mut self.books[k]) {
            trial.number = k as u8;
            self.places[k] = trial;
            self.count = k + 1;
        }
    }
}

impl<const N: usize> SetOf<N> {
    pub fn trials(&self) -> &[Trial] {
        &self.places[..self.count.min(N)]
    }

    pub fn trials_mut(&mut self) -> &mut [Trial] {
        &mut self.places[..self.count.min(N)]
    }
}

// The trial that is looked at as number c for set number i: one after another, or every second or third.
fn candidate(i: u64, c: u64) -> u64 {
    i % SETS * APART + c % CANDIDATES * (i % 3 + 1)
}

// The events of a trial in which exclusions gather: first the one that opens, then second arguments that differ.
fn narrow(first: u64, events: &mut [Event]) {
    if !invented::gathering(first) {
        return;
    }
    if let Some(open) = events.first_mut() {
        open.kind = 1;
        open.count = 1;
        open.arguments[1] = 0;
    }
    for (i, event) in events.iter_mut().enumerate() {
        if event.count == 2 {
            event.arguments[1] = (i % VALUES) as u8;
        }
    }
}

// A text read, which leaves zeros where it is refused: whether it is accepted.
fn is_read(text: &[u8], book: &mut [u32; BOOK_WORDS]) -> bool {
    let mut place = 0;
    let mut begins = 0;
    let mut ends = 0;
    lent::watch_read(text, book, &mut place, &mut begins, &mut ends) == 0
}
