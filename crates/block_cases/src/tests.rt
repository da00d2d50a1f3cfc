// Rows that a caller puts in: how many an event has then, what it is refused for, and the bytes that a call leaves of them.
use crate::{leaving, lending};
use corrupted::cases::{Damages, Space};
use corrupted::records;
use oracle::entries::Held;
use oracle::moves::{self, Move};

const EVENT: Move = Move {
    symbol: None,
    a: 1,
    b: 2,
};

#[test]
fn rows_as_bytes(rt: HostRuntime) {
    let mut outcome = moves::after(&Held::none(), EVENT);
    outcome.places[0] = Some(7);
    outcome.places[1] = Some(9);
    outcome.count = 2;
    let mut out = [255; 60];
    leaving::put_rows(&mut out, 5, 3, EVENT, &outcome);
    assert_eq!(rt; &out[..5], [255; 5].as_slice());
    assert_eq!(rt; &out[5..29], records::row(3, 1, 7).as_slice());
    assert_eq!(rt; &out[29..53], records::row(3, 1, 9).as_slice());
    assert_eq!(rt; &out[53..], [255; 7].as_slice());
}

#[test]
fn rows_refused(rt: HostRuntime) {
    let mut case = lending::drawn(0);
    case.number = 1;
    case.damages = Damages {
        book: None,
        state: None,
        record: None,
    };
    let mut outcome = moves::after(&Held::none(), EVENT);
    outcome.places[0] = Some(7);
    outcome.places[1] = Some(9);
    outcome.count = 2;
    assert_eq!(rt; leaving::rows(&case, &outcome), 2);
    let mut space = Space { size: 53, place: 5 };
    assert_eq!(rt; leaving::refusal(&case, EVENT, &outcome, space), None);
    space.size = 52;
    assert_eq!(rt; leaving::refusal(&case, EVENT, &outcome, space), Some(13));
    outcome.places[1] = None;
    assert_eq!(rt; leaving::refusal(&case, EVENT, &outcome, space), Some(9));
}
