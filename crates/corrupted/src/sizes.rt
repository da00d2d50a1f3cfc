// Sizes of what is lent, and the limits of document 01 that `damage` holds the watch to, written by hand.

// The room for an event record and a byte that is not its own, and the buffer that is lent for rows.
pub const RECORD_ROOM: usize = record::RECORD + 1;

pub const BUFFER: usize = 64;

// "Row, 24 bytes"
pub const ROW: usize = 24;

// Exclusions of a variable, events that are accepted, and the longest text of a book.
pub const EXCLUSIONS: usize = 6;

pub const MOST_EVENTS: u32 = 1000000;

pub const TEXT_BYTES: usize = 4096;
