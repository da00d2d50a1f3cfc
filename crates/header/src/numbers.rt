// A number as it is written, without a sign or leading zeros. For the lines of the second reader.

// "a number 0 to 4294967295 … without leading zeros"
pub fn number(digits: &[u8]) -> Option<u32> {
    match digits {
        [] => None,
        [b'0', _, ..] => None,
        _ => value(digits),
    }
}

// It is followed only while it is in range, so that no number of digits makes it wrap.
fn value(digits: &[u8]) -> Option<u32> {
    let mut n: u32 = 0;
    for b in digits {
        if !b.is_ascii_digit() {
            return None;
        }
        n = n.checked_mul(10)?.checked_add(u32::from(*b - b'0'))?;
    }
    Some(n)
}
