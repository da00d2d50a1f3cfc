// More places than a book needs: the depths of a refused text are noted as far as they have one.
use noted::Fault;

#[test]
fn twenty_parentheses(rt: HostRuntime) {
    let text = b"vars\nsym a 1\nmatch ((((((((((((((((((((a\n";
    let wide = crate::read_with::<4, 17, 20>(text);
    let plain = crate::read(text);
    assert_eq!(rt; wide.levels.depth(), 20);
    assert_eq!(rt; plain.levels.depth(), 16);
    let fault = Some(Fault {
        place: 35,
        number: 3,
    });
    assert!(rt; wide.least == fault);
    assert!(rt; plain.least == fault);
}
