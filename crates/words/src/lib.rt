// A word of a text as a name, as a kind, and as a fixed number. For the readers of lines and patterns.
#![tactic(auto)]

ghost use Rattle.std.specs.Prelude.{◌≡◌, true, ◌≤◌, ◌-◌, length, drop};
ghost use Rattle.std.specs.List.{prefix_len, list_all};
ghost use Rattle.laws.specs.Lists.{all};
ghost use Rattle.form.specs.Text.{is_digit, is_name_byte, number_digits};
ghost use Rattle.form.specs.Scan.{name_end, part, value};
ghost use Rattle.words.specs.Told.{name_told, kind_told, number_told};

use text::Refusal;

// "1 to 12 bytes"
pub const NAME_LIMIT: usize = 12;

// "KIND is 1 to 255", and how many digits that takes.
const KIND_LIMIT: u64 = 255;

const KIND_DIGITS: usize = 3;

// "a number 0 to 4294967295": how many digits that takes.
const NUMBER_DIGITS: usize = 10;

// How many bytes of names stand from p on.
fn name_bytes(s: &[u8], p: usize) -> usize
    ensures value { result ≡ prefix_len is_name_byte (drop p s.now) }
    ensures within { result ≤ length s.now - p }
{
    text::rest(s, p)
        .iter()
        .take_while(|b| text::is_name_byte(**b))
        .count()
}

pub fn name_end(s: &[u8], p: usize) -> usize
    ensures { result ≡ name_end s.now p }
{
    match text::peek(s, p) {
        Some(b) if text::is_lower(b) => p + name_bytes(s, p),
        _ => p,
    }
}

// Whether the word from p to e is a name, and why not.
pub fn name_told(s: &[u8], p: usize, e: usize) -> Result<(), Refusal>
    ensures { result ≡ name_told s.now p e }
{
    if name_end(s, p) != e {
        return Err(Refusal::BadLine(p));
    }
    if NAME_LIMIT < e - p {
        return Err(Refusal::AboveLimit(p));
    }
    Ok(())
}

fn all_digits(w: &[u8]) -> bool
    ensures { result ≡ list_all is_digit w.now }
{
    w.iter().all(|b| text::is_digit(*b))
}

// The value of a word of digits, no longer than a fixed number.
fn digits_value(w: &[u8]) -> u64
    requires { (length w.now ≤ number_digits) × (all is_digit w.now ≡ true) }
    ensures { result ≡ value 0 w.now }
{
    let mut n = 0;
    for b in w {
        n = n * 10 + u64::from(*b - text::ZERO);
    }
    n
}

// KIND: the value of the word from p to e, where it is a number in range.
pub fn kind_of(s: &[u8], p: usize, e: usize) -> Option<u32>
    requires { (p ≤ e) × (e ≤ length s.now) }
    ensures { result ≡ kind_told s.now p e }
{
    let w = &s[p..e];
    if KIND_DIGITS < w.len() || !all_digits(w) || text::peek(s, p) == Some(text::ZERO) {
        return None;
    }
    let n = digits_value(w);
    if n == 0 || KIND_LIMIT < n {
        return None;
    }
    Some(n as u32)
}

// A fixed number: the value of the word from p to e, where it is a number in range. Its digits are counted before its value is made,
// so that no sum goes beyond 64 bits.
pub fn number_of(s: &[u8], p: usize, e: usize) -> Option<u32>
    requires { e ≤ length s.now }
    ensures { result ≡ number_told s.now p e }
{
    if e <= p || NUMBER_DIGITS < e - p {
        return None;
    }
    let w = &s[p..e];
    if !all_digits(w) || (1 < w.len() && w[0] == text::ZERO) {
        return None;
    }
    u32::try_from(digits_value(w)).ok()
}
