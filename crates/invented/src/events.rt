// Random events and their records: now and then out of form or a byte short, and the place of the rows near the end of the buffer or
// beyond it. For `trial_with` and `records`.
use crate::{ARGUMENT, FIRST_EVENT, KIND, PLACES, ROWS, books, draw, small};
use record::RECORD;
use std::array;
use trial::{ARGUMENTS, BUFFER_BYTES, EVENTS, Event};

// One trace in so many is narrow; one record in so many is a byte short; one place in so many is near the end, and one beyond it, and
// the others are below a bound; one byte in so many is odd.
const NARROW_IN: usize = 3;

const SHORT_IN: usize = 50;

const FAR_IN: usize = 20;

const NEAR_BELOW: usize = 1000;

const ODD_IN: usize = 40;

// What a place near the end leaves, less than a row takes.
const LEFT: usize = 6;

// Draws that are for no place of a trial, or besides that for it.
const NARROW: usize = 2000;

const COUNTS: usize = 2100;

const NEAR: usize = 3000;

const SHORT: usize = 4000;

const SPOILED: usize = 5000;

// Bytes of a word; and a byte that puts a record out of form, if it stands for any of the first four but the kind, or for the last.
const WORD_BYTES: usize = 4;

const ODD: u8 = 5;

// In a narrow trace every first argument is 0, and most events have two.
pub fn narrow(book: u64) -> bool {
    draw(book, NARROW, NARROW_IN) == 0
}

pub fn events(book: u64, trace: u64) -> [Event; EVENTS] {
    let narrow = narrow(book);
    let values = books::largest(book).saturating_add(1);
    array::from_fn(|e| event(trace, FIRST_EVENT + e % EVENTS, narrow, values))
}

// The event with a number, on so many values.
fn event(trace: u64, number: usize, narrow: bool, values: u8) -> Event {
    let number = number % (FIRST_EVENT + EVENTS);
    let place = number * PLACES;
    let count = match small(trace, COUNTS + number, crate::COUNTS) {
        drawn if !narrow => drawn,
        0 => 1,
        _ => 2,
    };
    Event {
        kind: small(trace, place + KIND, crate::KINDS) % crate::KINDS + 1,
        count,
        arguments: array::from_fn(|i| {
            if narrow && i == 0 || usize::from(count) <= i {
                0
            } else {
                small(trace, place + ARGUMENT + i % ARGUMENTS, values)
            }
        }),
        record: [0; RECORD],
        short: draw(trace, SHORT + place + ROWS, SHORT_IN) == 0,
        place: rows(trace, place + ROWS),
        accepted: false,
        cut: false,
    }
}

// The place of the rows.
fn rows(trace: u64, place: usize) -> usize {
    match draw(trace, place, FAR_IN) {
        0 => BUFFER_BYTES - LEFT,
        1 => BUFFER_BYTES + 1,
        _ => draw(trace, NEAR + place % NEAR, NEAR_BELOW),
    }
}

// The records of the events of trial number j.
pub fn records(j: u64, events: &mut [Event]) {
    let trace = crate::trace_of(j);
    for (e, event) in events.iter_mut().enumerate() {
        event.record = record(trace, FIRST_EVENT + e % EVENTS, event);
    }
}

// The kind, the count, and four bytes for each argument, the lowest first; one byte in forty of those that may not be so is odd.
fn record(trace: u64, number: usize, event: &Event) -> [u8; RECORD] {
    array::from_fn(|j| {
        if odd(trace, number % 64 * RECORD, j) {
            if j == 0 { 0 } else { ODD }
        } else {
            byte(event, j)
        }
    })
}

fn odd(trace: u64, from: usize, j: usize) -> bool {
    (j < WORD_BYTES || j == RECORD - 1)
        && draw(trace, SPOILED + from % 10000 + j % RECORD, ODD_IN) == 0
}

fn byte(event: &Event, j: usize) -> u8 {
    match j {
        0 => event.kind,
        1 => event.count,
        _ if j % WORD_BYTES == 0 => {
            let argument = (j / WORD_BYTES).checked_sub(1);
            argument
                .and_then(|i| event.arguments.get(i).copied())
                .unwrap_or(0)
        }
        _ => 0,
    }
}
