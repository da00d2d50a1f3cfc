// The public calls again, each handed on as it is: every contract here says of the very result what the theorems say of it (promises/specs), so
// that contract and theorems speak of one thing, whatever the contract of the call below names. No public function has a `requires`.
#![tactic(auto)]

ghost use Rattle.std.specs.Prelude.{◌≡◌, true, ℕ, ◌+◌};
ghost use Rattle.form.specs.Text.{is_bytes};
ghost use Rattle.calls.specs.Calls.{taken, buffer_after};
ghost use Rattle.promises.specs.ReadResults.{ReadingTold, ReadGives, PlaceGives, NameGives};
ghost use Rattle.promises.specs.EventResults.{EventTold, state_of_nothing, TallyRises, EventGives};

use book::{Book, Reading, ReadingAnswer};
use calls::{EventAnswer, Taken};
use state::State;
use table::Name;
use tally::Tally;

pub fn read(s: &[u8]) -> Reading
    ensures { ReadGives s.now result }
{
    watch::read(s)
}

pub fn name_place(s: &[u8], number: usize) -> Name
    ensures { PlaceGives s.now number result.start result.size }
{
    watch::name_place(s, number)
}

// That very part of the lent text, from the declaring place on.
pub fn name(s: &[u8], number: usize) -> &[u8]
    ensures bytes { NameGives s.now number result.now }
    ensures place { (result.ref_ptr.0 ≡ s.entry.ref_ptr.0)
        × ((start : ℕ) × (size : ℕ) × PlaceGives s.now number start size × (result.ref_ptr.1 ≡ s.entry.ref_ptr.1 + start)) }
{
    watch::name(s, number)
}

pub fn fresh() -> State
    ensures { result ≡ state_of_nothing }
{
    watch::fresh()
}

pub fn event(
    book: Book,
    state: State,
    bytes: &[u8],
    rows: &mut [u8],
    place: usize,
    tally: Tally,
) -> Taken
    ensures { EventGives book state bytes.now rows.old place tally result rows.new }
{
    watch::event(book, state, bytes, rows, place, tally)
}

// The event call with the tally lent, its tally and all else that it hands back put together.
fn lent_event(
    book: Book,
    state: State,
    bytes: &[u8],
    rows: &mut [u8],
    place: usize,
    tally: Tally,
) -> Taken
    ensures { (result ≡ taken book state bytes.now rows.old place tally)
        × (rows.new ≡ buffer_after book state bytes.now rows.old place)
        × (is_bytes bytes.now ≡ true) }
{
    let mut tally = tally;
    let given = counted::event(book, state, bytes, rows, place, &mut tally);
    Taken {
        answer: given.answer,
        rows: given.rows,
        book: given.book,
        state: given.state,
        tally,
    }
}

// `counted::event`, whose lent tally comes back with the rest.
pub fn counted_event(
    book: Book,
    state: State,
    bytes: &[u8],
    rows: &mut [u8],
    place: usize,
    tally: Tally,
) -> Taken
    ensures { EventGives book state bytes.now rows.old place tally result rows.new }
{
    lent_event(book, state, bytes, rows, place, tally)
}

// `tally::count`, whose lent tally comes back.
pub fn count(tally: Tally, accepted: u64, refused: u64, rows: u64) -> Tally
    ensures { TallyRises tally accepted refused rows result }
{
    let mut t = tally;
    tally::count(&mut t, accepted, refused, rows);
    t
}

// `Tally::added` and `Tally::none`.
pub fn added(tally: Tally, accepted: u64, refused: u64, rows: u64) -> Tally
    ensures { TallyRises tally accepted refused rows result }
{
    tally.added(accepted, refused, rows)
}

pub fn none() -> Tally
    ensures { (result.accepted ≡ 0) × (result.refused ≡ 0) × (result.rows ≡ 0) }
{
    Tally::none()
}

// An answer's number and place.
#[derive(Clone, Copy)]
pub struct Told {
    pub number: usize,
    pub place: usize,
}

pub fn reading_told(a: ReadingAnswer) -> Told
    ensures { ReadingTold a result.number result.place }
{
    Told {
        number: book::number_of(a),
        place: book::place_of(a),
    }
}

pub fn event_told(a: EventAnswer) -> Told
    ensures { EventTold a result.number result.place }
{
    Told {
        number: watch::number_of(a),
        place: watch::place_of(a),
    }
}
