// Scanning of lent bytes: what stands at a place, how far runs go, the gap after a word, words compared. For the readers of lines and
// patterns; a word as a name, as a kind or as a fixed number is in `words`.
#![tactic(auto)]

ghost use Rattle.std.specs.Prelude.{◌≡◌, ◌≤◌, ◌-◌, length, slice_get, drop};
ghost use Rattle.form.specs.Text.{is_lower, is_digit, is_name_byte};
ghost use Rattle.std.specs.List.{prefix_len};
ghost use Rattle.form.specs.Scan.{is_space, is_word_byte, spaces_end, word_end, next_word};
ghost use Rattle.form.specs.Lines.{want_word};
ghost use Rattle.text.specs.Steps.{step_of};

pub const SPACE: u8 = b' ';

pub const LF: u8 = b'\n';

pub const ZERO: u8 = b'0';

// Why a text is refused and where: the answers 2 to 8 of document 01, with the first byte of the offending word or token.
#[derive(Clone, Copy, PartialEq, Eq)]
pub enum Refusal {
    BadLine(usize),
    AboveLimit(usize),
    Redeclared(usize),
    Undeclared(usize),
    BadPattern(usize),
    EmptyWord(usize),
    Unbound(usize),
}

// The byte at p, none past the end.
pub fn peek(s: &[u8], p: usize) -> Option<u8>
    ensures { result ≡ slice_get s.now p }
{
    s.get(p).copied()
}

pub fn is_lower(b: u8) -> bool
    ensures { result ≡ is_lower b }
{
    b.is_ascii_lowercase()
}

pub fn is_digit(b: u8) -> bool
    ensures { result ≡ is_digit b }
{
    b.is_ascii_digit()
}

pub fn is_name_byte(b: u8) -> bool
    ensures { result ≡ is_name_byte b }
{
    is_lower(b) || is_digit(b)
}

fn is_word_byte(b: u8) -> bool
    ensures { result ≡ is_word_byte b }
{
    b != SPACE && b != LF
}

// What stands from p on, nothing past the end. A run is counted from here, as `skip` would step over all that stands before.
pub fn rest(s: &[u8], p: usize) -> &[u8]
    ensures { result.now ≡ drop p s.now }
{
    &s[p.min(s.len())..]
}

// How many spaces stand from p on, and how many bytes of a word.
fn spaces(s: &[u8], p: usize) -> usize
    ensures value { result ≡ prefix_len is_space (drop p s.now) }
    ensures within { result ≤ length s.now - p }
{
    rest(s, p).iter().take_while(|b| **b == SPACE).count()
}

fn word_bytes(s: &[u8], p: usize) -> usize
    ensures value { result ≡ prefix_len is_word_byte (drop p s.now) }
    ensures within { result ≤ length s.now - p }
{
    rest(s, p).iter().take_while(|b| is_word_byte(**b)).count()
}

pub fn spaces_end(s: &[u8], p: usize) -> usize
    ensures { result ≡ spaces_end s.now p }
{
    p + spaces(s, p)
}

pub fn word_end(s: &[u8], p: usize) -> usize
    ensures { result ≡ word_end s.now p }
{
    p + word_bytes(s, p)
}

// After a word that ends at p: the next word, the line's LF at p itself, or why there is neither.
pub fn next_word(s: &[u8], p: usize) -> Result<usize, Refusal>
    ensures { result ≡ step_of (next_word s.now p) }
{
    let q = spaces_end(s, p);
    let Some(b) = peek(s, q) else {
        return Err(Refusal::BadLine(p));
    };
    match (b == LF, q - p) {
        (true, 0) => Ok(p),
        (true, _) => Err(Refusal::BadLine(p)),
        (false, 0) => Err(Refusal::BadLine(p)),
        (false, 1) => Ok(q),
        (false, _) => Err(Refusal::BadLine(p + 1)),
    }
}

// A word that must stand after the word that ends at p.
pub fn want_word(s: &[u8], p: usize) -> Result<usize, Refusal>
    ensures { result ≡ step_of (want_word s.now p) }
{
    let q = next_word(s, p)?;
    if q == p {
        return Err(Refusal::BadLine(p));
    }
    Ok(q)
}
