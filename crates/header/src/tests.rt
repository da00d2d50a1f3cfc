// More places than a book needs: nothing is left out that has one, be it behind a fault.
use noted::NotesOf;

#[test]
fn twenty_symbols(rt: HostRuntime) {
    let text =
        b"vars\nsym a 1\nsym b 1\nsym c 1\nsym d 1\nsym e 1\nsym f 1\nsym g 1\nsym h 1\nsym i 1\nsym j 1\nsym k 1\nsym l 1\nsym m 1\nsym n 1\nsym o 1\nsym p 1\nsym q 1\nsym r 1\nsym s 1\nsym t 2\n";
    let mut notes = NotesOf::<4, 20, 0>::new(text);
    for (at, b) in text.iter().enumerate() {
        crate::step(&mut notes, at, Some(*b));
    }
    assert_eq!(rt; notes.symbols.len(), 20);
    assert!(rt; notes.symbols.iter().all(|s| s.name.bytes.len() == 1));
    assert_eq!(rt; notes.symbols.last().map(|s| s.kind), Some(2));
}

#[test]
fn six_variables(rt: HostRuntime) {
    let text = b"vars a b c d\nvars e f\n";
    let mut notes = NotesOf::<6, 0, 0>::new(text);
    for (at, b) in text.iter().enumerate() {
        crate::step(&mut notes, at, Some(*b));
        notes.line = 0;
    }
    assert_eq!(rt; notes.variables.len(), 6);
    assert!(rt; notes.least.is_none());
}
