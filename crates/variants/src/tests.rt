// Texts longer than `Text` has places for, in lent buffers; and the same in both where it has.
use crate::{
    BASES, KINDS, Kind, ROOM, Text, edited, edited_into, spaces, spaces_into, zeros, zeros_into,
};

const LONG: usize = 10000;

#[test]
fn long_zeros(rt: HostRuntime) {
    let mut out = [1; LONG + 50];
    let n = zeros_into(LONG, &mut out);
    assert_eq!(rt; n, LONG + 24);
    assert_eq!(rt; &out[..16], b"vars\nsym a 1 =10".as_slice());
    assert!(rt; out[15..LONG + 15].iter().all(|b| *b == b'0'));
    assert_eq!(rt; &out[LONG + 15..LONG + 24], b"\nmatch a\n".as_slice());
    assert!(rt; out[LONG + 24..].iter().all(|b| *b == 1));
}

#[test]
fn long_spaces(rt: HostRuntime) {
    let mut out = [1; LONG + 50];
    let n = spaces_into(LONG, &mut out);
    assert_eq!(rt; n, LONG + 1);
    let base = BASES[0].trim_end().as_bytes();
    assert!(rt; out.starts_with(base));
    assert!(rt; out[base.len()..LONG].iter().all(|b| *b == b' '));
    assert_eq!(rt; out[LONG], b'\n');
}

#[test]
fn long_edited(rt: HostRuntime) {
    let text = [b'a'; LONG];
    let mut out = [1; 2 * LONG];
    assert_eq!(rt;
        edited_into(&text, Kind::Insert(b'x'), 9000, &mut out),
        LONG + 1
    );
    assert_eq!(rt; out[9000], b'x');
    assert_eq!(rt; out[LONG], b'a');
    assert_eq!(rt; out[LONG + 1], 1);
    assert_eq!(rt; edited_into(&text, Kind::DoubleLine, 0, &mut out), 2 * LONG);
}

// Every kind of edit of a base text, and one whose text has no place behind the first bytes.
#[test]
fn as_in_a_text(rt: HostRuntime) {
    let base = BASES[4].as_bytes();
    let mut text = Text::new();
    let mut out = [0; ROOM];
    for place in [0, 7, base.len() - 1, base.len(), base.len() + 9] {
        for n in 0..KINDS {
            edited(base, Kind::numbered(n), place, &mut text);
            let m = edited_into(base, Kind::numbered(n), place, &mut out);
            assert_eq!(rt; text.as_slice(), &out[..m]);
        }
    }
    for size in [0, 5, 100, 5000] {
        zeros(size, &mut text);
        let m = zeros_into(size, &mut out);
        assert_eq!(rt; text.as_slice(), &out[..m]);
        spaces(size, &mut text);
        let m = spaces_into(size, &mut out);
        assert_eq!(rt; text.as_slice(), &out[..m]);
    }
    let mut few = [0; 3];
    assert_eq!(rt; edited_into(base, Kind::Omit, 1, &mut few), 3);
    assert_eq!(rt; few, *b"vrs");
}
