// What document 01 says of an event for the disjuncts that are held: its rows, whether there is room, and what is held afterwards. For `block_cases`,
// which says what a call leaves, and for `lent_damage`.
use crate::entries::{Entry, Excluded, Held, PLACES, Second};
use crate::events::Symbol;

// The event, by the symbol that matches it, if there is one.
#[derive(Clone, Copy)]
pub struct Move {
    pub symbol: Option<Symbol>,
    pub a: u32,
    pub b: u32,
}

// The rows, so many of the places, have the event's `d`, and each its value of `s`, none where it would leave `s` free. `rows` gives those that
// count.
#[derive(Clone, Copy)]
pub struct Outcome {
    pub room: bool,
    pub count: usize,
    pub places: [Option<u32>; PLACES],
    pub held: Held,
    meets: bool,
}

impl Outcome {
    pub fn rows(&self) -> &[Option<u32>] {
        &self.places[..self.count.min(PLACES)]
    }

    pub fn leaves_free(&self) -> bool {
        self.rows().iter().any(|s| s.is_none())
    }

    pub fn row_count(&self) -> usize {
        self.rows().len()
    }

    // A row more, behind the others.
    fn list(&mut self, s: Option<u32>) {
        if self.count < PLACES {
            self.places[self.count] = s;
            self.count += 1;
        }
    }

    // The step sets: `fill` meets an entry of position 1, `close` one of position 2, which gives a row.
    fn step(&mut self, e: Entry, m: Move) {
        if e.d != m.a {
            return;
        }
        match (m.symbol, e.position) {
            (Some(Symbol::Fill), 1) => self.meets |= e.s.admits(m.b),
            (Some(Symbol::Close), 2) => self.list(e.s.value()),
            _ => {}
        }
    }

    // The skip set: "c false, or D met with c false, keeps D". `open` and `close` have no variable that is free in an entry with their `d`, and `reset`
    // has none at all: nothing is left. "A position that nothing follows keeps none."
    fn skip(&mut self, e: Entry, m: Move) {
        if e.position == 3 || m.symbol == Some(Symbol::Reset) {
            return;
        }
        if m.symbol.is_none() || e.d != m.a {
            return self.held.push(e);
        }
        if m.symbol == Some(Symbol::Fill) {
            self.skip_fill(e, m.b);
        }
    }

    // `fill` excludes its value where `s` is free. No room where "a variable would have 7 exclusions".
    fn skip_fill(&mut self, e: Entry, b: u32) {
        match e.s {
            Second::Value(x) if x == b => {}
            Second::Free(excluded) if e.s.admits(b) => match excluded.with(b) {
                Some(more) => self.held.push(Entry {
                    s: Second::Free(more),
                    ..e
                }),
                None => self.room = false,
            },
            _ => self.held.push(e),
        }
    }

    // "New label: both sets joined.": what is met is not among what was skipped, since that has another `d`, or another `s`.
    fn join(&mut self, m: Move) {
        match m.symbol {
            Some(Symbol::Open) => self.held.insert(Entry {
                position: 1,
                d: m.a,
                s: Second::Free(Excluded::of(&[])),
            }),
            Some(Symbol::Fill) if self.meets => self.held.insert(Entry {
                position: 2,
                d: m.a,
                s: Second::Value(m.b),
            }),
            _ => {}
        }
    }
}

// No room where "all new labels together exceed 128".
pub fn after(h: &Held, m: Move) -> Outcome {
    let mut o = Outcome {
        room: true,
        count: 0,
        places: [None; PLACES],
        held: Held::none(),
        meets: false,
    };
    for e in h.entries() {
        o.step(*e, m);
        o.skip(*e, m);
    }
    o.join(m);
    if PLACES < o.held.entries().len() {
        o.room = false;
    }
    o
}
