// Events, the bytes of their records and of their rows, and damage to the bytes of a record.
ghost use Rattle.std.specs.Prelude.{◌<◌};

use crate::sizes::{RECORD_ROOM, ROW};
use record::RECORD;

// An event: its kind, and the count of its arguments; those beyond it are zero.
#[derive(Clone, Copy)]
pub struct Event {
    pub kind: u8,
    pub count: u8,
    pub arguments: [u32; 3],
}

impl Event {
    // With one argument, or with two.
    pub fn one(kind: u8, a: u32) -> Event {
        Event {
            kind,
            count: 1,
            arguments: [a, 0, 0],
        }
    }

    pub fn two(kind: u8, a: u32, b: u32) -> Event {
        Event {
            kind,
            count: 2,
            arguments: [a, b, 0],
        }
    }

    // With an argument more, before, among or behind its one or two.
    pub fn with(self, place: u64, x: u32) -> Event {
        let [a, b, _] = self.arguments;
        Event {
            kind: self.kind,
            count: self.count % 3 + 1,
            arguments: match place {
                0 => [x, a, b],
                1 => [a, x, b],
                _ => [a, b, x],
            },
        }
    }

    // Its record; the byte behind it is not its own.
    pub fn record(self) -> Lent {
        let mut bytes = [0u8; RECORD_ROOM];
        bytes[0] = self.kind;
        bytes[1] = self.count;
        put(&mut bytes[4..], &self.arguments);
        bytes[RECORD] = 255;
        Lent {
            bytes,
            length: RECORD,
        }
    }
}

// Of the 21 bytes the first `length` are lent.
#[derive(Clone, Copy)]
pub struct Lent {
    bytes: [u8; RECORD_ROOM],
    length: usize,
}

impl Lent {
    pub fn bytes(&self) -> &[u8] {
        &self.bytes[..self.length.min(RECORD_ROOM)]
    }
}

// Numbers as bytes, the lowest first.
fn put(bytes: &mut [u8], numbers: &[u32]) {
    for (four, x) in bytes.chunks_exact_mut(4).zip(numbers) {
        four.copy_from_slice(&x.to_le_bytes());
    }
}

// The bytes of the row of an event: its number, two variables, their values.
pub fn row(number: u32, a: u32, b: u32) -> [u8; ROW] {
    let mut bytes = [0u8; ROW];
    put(&mut bytes, &[number, 2, a, b]);
    bytes
}

// How a record is out of form: a byte too short, a byte too long, or of any length below its own but one; of kind 0, of more than four
// arguments, with byte 2, byte 3 or an argument beyond the count not zero.
#[derive(Clone, Copy)]
pub enum Damage {
    Shorter,
    Longer,
    Short,
    KindZero,
    ManyArguments,
    ByteTwo,
    ByteThree,
    ArgumentBeyond,
}

impl Damage {
    pub const ALL: [Damage; 8] = [
        Damage::Shorter,
        Damage::Longer,
        Damage::Short,
        Damage::KindZero,
        Damage::ManyArguments,
        Damage::ByteTwo,
        Damage::ByteThree,
        Damage::ArgumentBeyond,
    ];
}

// The record with the damage, if there is any; x says how much, y where.
pub fn damaged(l: Lent, damage: Option<Damage>, x: u64, y: u64) -> Lent {
    let Some(damage) = damage else {
        return l;
    };
    let more = 1 + (x % 255) as u8;
    let mut r = l;
    match damage {
        Damage::Shorter => r.length = RECORD - 1,
        Damage::Longer => r.length = RECORD_ROOM,
        Damage::Short => r.length = (y % 20) as usize,
        Damage::KindZero => r.bytes[0] = 0,
        Damage::ManyArguments => r.bytes[1] = 5 + (x % 251) as u8,
        Damage::ByteTwo => r.bytes[2] = more,
        Damage::ByteThree => r.bytes[3] = more,
        Damage::ArgumentBeyond => r.bytes[beyond(l.bytes[1], y)] = more,
    }
    r
}

// A byte of an argument beyond the two or three that there are.
fn beyond(count: u8, y: u64) -> usize
    ensures { result < 20 }
{
    if count == 3 {
        16 + (y % 4) as usize
    } else {
        12 + (y % 8) as usize
    }
}
