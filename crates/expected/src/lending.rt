// What is lent to the event call in one case, drawn from the seed of the case: which kinds of damage there are, the book, the state, the
// record, the tally, and the buffer with the place from which rows go into it.
use crate::moves::Move;
use book::Book;
use corrupted::cases::Space;
use corrupted::records::Lent;
use corrupted::sizes::{BUFFER, ROW};
use corrupted::{amounts, books, cases, records, states};
use state::State;
use tally::Tally;

pub type Damages = cases::Damages<books::Damage, states::Damage>;

// What is damaged in a case: a state only where it holds two disjuncts.
pub fn drawn_damages(seed: u64, m: Move) -> Damages {
    let state = amounts::kind(seed, 32, 4, &states::Damage::ALL);
    Damages {
        book: amounts::kind(seed, 30, 4, &books::Damage::ALL),
        state: state.filter(|_| m.held.second.is_some()),
        record: amounts::kind(seed, 34, 4, &records::Damage::ALL),
    }
}

// Mostly room for a row; else one row just fits or not, the place is the end or just beyond it, any size up to 63 with any place up
// to 70, or a place far beyond.
pub fn drawn_space(seed: u64) -> Space {
    let size = draws::below(seed, 41, 64) as usize;
    let place = draws::below(seed, 42, 71) as usize;
    let near = draws::below(seed, 43, 2) as usize;
    match draws::below(seed, 40, 16) {
        0..=2 => Space { size, place },
        3..=4 => Space {
            size: ROW + size % 40,
            place: size % 40 + near,
        },
        5 => Space {
            size,
            place: size + near,
        },
        6 => Space {
            size,
            place: amounts::amount(seed, 44) as usize,
        },
        _ => Space {
            size: BUFFER,
            place: place % 41,
        },
    }
}

// How much a book is damaged, and where. A fixed number is as much; what the event has there is the same, one time in two, or differs in
// one bit.
fn much(seed: u64) -> u64 {
    amounts::amount(seed, 50)
}

fn somewhere(seed: u64) -> u64 {
    draws::below(seed, 52, 1000000)
}

fn given(seed: u64) -> u32 {
    amounts::near(seed, 90, amounts::short(much(seed)))
}

// What the event does, with the damage to the book: "The symbol's constraint is false where that argument differs."
pub fn meant(seed: u64, m: Move, damage: Option<books::Damage>) -> Move {
    if damage == Some(books::Damage::Fixed) && given(seed) != amounts::short(much(seed)) {
        return m.passed_over();
    }
    m
}

// The book that is lent: what no count reaches filled, one time in two, and then the damage.
pub fn lent_book(seed: u64, b: Book, damage: Option<books::Damage>) -> Book {
    let lent = match draws::below(seed, 53, 2) {
        0 => b,
        _ => books::spare(b, amounts::amount(seed, 54)),
    };
    books::damaged(lent, damage, much(seed), somewhere(seed))
}

// The state, in the same way.
pub fn lent_state(seed: u64, m: Move, damage: Option<states::Damage>) -> State {
    let lent = match draws::below(seed, 63, 2) {
        0 => states::clean(m.held),
        _ => states::spare(m.held, amounts::amount(seed, 64)),
    };
    let x = amounts::amount(seed, 60);
    states::damaged(lent, damage, x, draws::below(seed, 62, 1000000))
}

// The event's record, with the damage: with an argument more where the symbols have a fixed number.
pub fn lent_record(seed: u64, m: Move, k: Damages) -> Lent {
    let e = match k.book {
        Some(books::Damage::Fixed) => {
            let at = books::place(somewhere(seed), m.event.count as u64);
            m.event.with(at, given(seed))
        }
        _ => m.event,
    };
    let x = amounts::amount(seed, 70);
    records::damaged(e.record(), k.record, x, draws::below(seed, 72, 1000000))
}

pub fn lent_tally(seed: u64) -> Tally {
    Tally {
        accepted: amounts::counter(seed, 80),
        refused: amounts::counter(seed, 84),
        rows: amounts::counter(seed, 88),
    }
}

// The buffer, before the call.
pub fn fill(seed: u64, out: &mut [u8]) {
    for (i, b) in out.iter_mut().enumerate() {
        *b = amounts::byte(draws::below(seed, 1000 + i as u64 % 1000, 256));
    }
}
