// Amounts by which a number is put out of its range, drawn at random; one more than a count; and which kind of damage there is.

// An amount: often 0 to 2, else middling, large, or near the largest number of 32 or 64 bits.
pub fn amount(x: u64, k: u64) -> u64 {
    let y = draws::below(x, k % 65536 + 1, 268000000);
    let near = y % 1000;
    match draws::below(x, k, 6) {
        0 => near,
        1 => y,
        2 => 4280000000 + near,
        3 => 18446744073700000000 + near,
        _ => y % 3,
    }
}

// The least number out of range, and an amount more: less than the largest of 64 bits, and of 32.
pub fn above(least: usize, x: u64) -> usize {
    least % 2000000 + (x % 18446744073705000000) as usize
}

pub fn above_short(least: u32, x: u64) -> u32 {
    least % 2000000 + (x % 4290000000) as u32
}

// The same amount in 32 bits, and in a byte.
pub fn short(x: u64) -> u32 {
    (x & 0xffff_ffff) as u32
}

pub fn byte(x: u64) -> u8 {
    (x & 0xff) as u8
}

// A counter of a tally: also the largest value and one below it.
pub fn counter(x: u64, k: u64) -> u64 {
    match draws::below(x, k, 4) {
        0 => u64::MAX,
        1 => u64::MAX - 1,
        2 => amount(x, k % 65536 + 1),
        _ => draws::below(x, k % 65536 + 2, 3),
    }
}

// No count here comes near the bound: it is there so that the sum needs no proof.
pub fn up(x: u32) -> u32 {
    x % 1000000000 + 1
}

// The number, or, one time in two, another that differs in one bit.
pub fn near(x: u64, k: u64, number: u32) -> u32 {
    if draws::below(x, k, 2) == 0 {
        return number;
    }
    number ^ 1 << draws::below(x, k % 1000 + 1, 32)
}

// One of the kinds of damage, one time in so many, else none.
pub fn kind<T: Copy>(x: u64, k: u64, seldom: u64, kinds: &[T]) -> Option<T> {
    if draws::below(x, k, seldom) != 0 {
        return None;
    }
    let i = draws::below(x, k % 1000 + 1, kinds.len() as u64);
    kinds.get(i as usize).copied()
}
