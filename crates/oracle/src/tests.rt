// What is left of no disjunct, with other rows put in.
use crate::entries::Held;
use crate::moves::{self, Move};

#[test]
fn rows_put_in(rt: HostRuntime) {
    let event = Move {
        symbol: None,
        a: 1,
        b: 2,
    };
    let mut outcome = moves::after(&Held::none(), event);
    assert_eq!(rt; outcome.row_count(), 0);
    outcome.places[0] = Some(7);
    outcome.count = 2;
    assert_eq!(rt; outcome.rows(), [Some(7), None].as_slice());
    assert!(rt; outcome.leaves_free());
}
