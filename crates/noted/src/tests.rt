// More places than a book needs: nothing is left out that has one.
use crate::declared::{Argument, SymbolOf, Word};
use crate::levels::{ALL, LevelsOf, NOT_EMPTY};
use crate::{NotesOf, Phase};
use arrayvec::ArrayVec;

// Twenty parentheses, each behind an item that binds the first variable, the innermost with two choices.
#[test]
fn as_deep_as_there_are_places(rt: HostRuntime) {
    let mut levels = LevelsOf::<20>::new();
    for _ in 0..20 {
        levels.add(NOT_EMPTY | 1);
        levels.open();
        assert!(rt; !levels.stands());
    }
    assert_eq!(rt; levels.depth(), 20);
    levels.add(NOT_EMPTY | 2);
    levels.divide();
    levels.add(NOT_EMPTY | 4);
    assert_eq!(rt; levels.alternation(), NOT_EMPTY);
    for _ in 0..20 {
        assert!(rt; levels.close());
        assert_eq!(rt; levels.alternation(), NOT_EMPTY | 1);
    }
    assert_eq!(rt; levels.depth(), 0);
    assert!(rt; !levels.close());
    levels.optional();
    assert_eq!(rt; levels.alternation() & ALL, NOT_EMPTY | 1);
}

#[test]
fn as_many_arguments_as_there_are_places(rt: HostRuntime) {
    let mut arguments: ArrayVec<Argument, 5> = ArrayVec::new();
    for v in 0..5 {
        assert!(rt; arguments.try_push(Argument::Variable(v)).is_ok());
    }
    let symbol = SymbolOf {
        name: Word::default(),
        kind: 1,
        arguments,
    };
    assert_eq!(rt; symbol.binds(), 31);
}

#[test]
fn as_many_variables_as_there_are_places(rt: HostRuntime) {
    let text = b"abcdef";
    let mut notes = NotesOf::<6, 0, 0>::new(text);
    for at in 0..6 {
        let name = notes.word(at, at + 1);
        assert!(rt; !notes.is_declared(name.bytes));
        assert!(rt; notes.variables.try_push(name).is_ok());
        assert!(rt; notes.is_declared(name.bytes));
    }
    assert_eq!(rt; notes.name(5).map(|w| w.start), Some(5));
    assert!(rt; notes.name(6).is_none());
    assert!(rt; notes.phase == Phase::Lines);
    notes.fault(3, 4);
    notes.fault(2, 4);
    notes.fault(1, 5);
    assert_eq!(rt; notes.least.map(|f| f.number), Some(2));
    assert!(rt; notes.name(0).is_none());
}
