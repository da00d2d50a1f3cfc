// Which symbols hold on an event under a valuation: which events concern it. For the second matcher.
use trial::{Event, SYMBOLS, Symbol, Trial, Values};

// Whether a symbol of the book holds on an event.
pub fn holds(symbol: Option<&Symbol>, event: &Event, values: &Values) -> bool {
    symbol.is_some_and(|s| s.holds(event, values))
}

// Whether a valuation is concerned by an event, accepted or not.
pub fn concerns(trial: &Trial, event: &Event, values: &Values) -> bool {
    (0..SYMBOLS).any(|s| holds(trial.book.symbols[s].as_ref(), event, values))
}

// How many of some events were accepted.
pub fn accepted(events: &[Event]) -> usize {
    events.iter().filter(|e| e.accepted).count()
}

// Whether some candidate valuation is concerned by both events.
pub fn dependent(trial: &Trial, e: usize, f: usize) -> bool {
    let (Some(e), Some(f)) = (trial.events.get(e), trial.events.get(f)) else {
        return false;
    };
    if accepted(&trial.events) == 0 {
        return false;
    }
    for number in 0..trial.book.valuations {
        let values = trial.book.values(number);
        if concerns(trial, e, &values) && concerns(trial, f, &values) {
            return true;
        }
    }
    false
}
