// The tally: accepted events, refused events and rows written, by value, and lent in one function; a counter stops at the largest 64-bit value.
#![tactic(auto)]

ghost use Rattle.std.specs.Prelude.{◌≡◌};
ghost use Rattle.tally.specs.Tallies.{tallied};

#[derive(Clone, Copy, PartialEq, Eq)]
pub struct Tally {
    pub accepted: u64,
    pub refused: u64,
    pub rows: u64,
}

impl Tally {
    pub fn none() -> Tally
        ensures { result ≡ record { accepted = 0; refused = 0; rows = 0 } }
    {
        Tally {
            accepted: 0,
            refused: 0,
            rows: 0,
        }
    }

    // Each counter with so many more.
    pub fn added(self, accepted: u64, refused: u64, rows: u64) -> Tally
        ensures { result ≡ tallied self accepted refused rows }
    {
        Tally {
            accepted: self.accepted.saturating_add(accepted),
            refused: self.refused.saturating_add(refused),
            rows: self.rows.saturating_add(rows),
        }
    }
}

// The counters of a lent tally, changed there.
pub fn count(t: &mut Tally, accepted: u64, refused: u64, rows: u64)
    ensures { t.new ≡ tallied t.old accepted refused rows }
{
    *t = t.added(accepted, refused, rows);
}
