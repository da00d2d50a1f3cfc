// Sets that a caller makes: of few books, and with more places than a call takes.
use crate::{Runs, Set, SetOf};
use lent_set::{BOOK_WORDS, BOOKS};

#[test]
fn as_many_as_count(rt: HostRuntime) {
    let trial = invented::trial(0);
    let mut set = Set {
        count: 0,
        places: [trial; BOOKS],
        books: [[0; BOOK_WORDS]; BOOKS],
    };
    assert!(rt; set.trials().is_empty());
    set.count = 2;
    assert_eq!(rt; set.trials_mut().len(), 2);
    set.count = 9;
    assert_eq!(rt; set.trials().len(), 8);
}

// A set of nine books, which no call takes: fresh states for nine are refused, and that is not what a run awaits.
#[test]
fn nine(rt: HostRuntime) {
    let trial = invented::trial(0);
    let mut set = SetOf {
        count: 9,
        places: [trial; 9],
        books: [[0; BOOK_WORDS]; BOOKS],
    };
    assert_eq!(rt; set.trials().len(), 9);
    set.list();
    set.reorder();
    let mut runs = Runs::none();
    runs.run(&mut set);
    assert!(rt; 0 < runs.score.differences);
}
