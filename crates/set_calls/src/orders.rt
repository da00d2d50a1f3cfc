// The second matcher's rows for each book of a set; and another order of the events, neighbours exchanged that concern no common valuation in any of
// its books. For the program `set_trials`.
use crate::chosen::SetOf;
use trial::{EVENTS, Trial};

// Exchanges that are tried, and how far apart one is from the next.
const EXCHANGES: usize = 60;

const APART: usize = 7;

impl<const N: usize> SetOf<N> {
    // The rows of each book after each event that the set accepted.
    pub fn list(&mut self) {
        for trial in self.trials_mut() {
            second::rows(trial);
        }
    }

    // Neighbours exchanged, again and again, in the trials of all books.
    pub fn reorder(&mut self) {
        for k in 0..EXCHANGES {
            let at = k * APART % (EVENTS - 1);
            if independent(self.trials(), at) {
                self.exchange(at);
            }
        }
    }

    fn exchange(&mut self, at: usize) {
        for trial in self.trials_mut() {
            trial.exchange(at);
        }
    }
}

// Whether event number i of the run and the next concern no common valuation.
fn independent(trials: &[Trial], i: usize) -> bool {
    let Some(first) = trials.first() else {
        return false;
    };
    let (Some(e), Some(f)) = (first.order.get(i), first.order.get(i.saturating_add(1))) else {
        return false;
    };
    !trials.iter().any(|t| second::dependent(t, *e, *f))
}
