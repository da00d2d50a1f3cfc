// The second matcher: from a whole trace, by the declarative meaning. For each candidate valuation every stretch of the events that
// concern it is tried against the pattern's tree. It knows no positions, labels or disjuncts. For `trials` and `set_trials`, with the
// comparison of its rows with the watch's.
#![tactic(auto)]

mod compared;
mod concern;
mod stretches;

pub use compared::{note, reorder};
pub use concern::dependent;
use trial::{Trial, VALUATIONS};

// The rows after each event of a run that was made; there are none to ask for where no event was accepted.
pub fn rows(trial: &mut Trial) {
    if concern::accepted(&trial.events) == 0 {
        return;
    }
    let mut listed = [0; VALUATIONS];
    for (number, ends) in listed.iter_mut().enumerate().take(trial.book.valuations) {
        *ends = stretches::ends(trial, number);
    }
    trial.listed = Some(listed);
}
