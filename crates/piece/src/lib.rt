// One fragment of a pattern: its masks, the symbols of its positions and the positions that follow each. Index i of an array is
// position i + 1; what belongs to no position of the fragment is 0. For the reader of patterns.
#![tactic(auto)]

ghost use Rattle.std.specs.Prelude.{◌≡◌, map, ℕ, ◌+◌, ◌≤◌, ◌<◌, get_or};
ghost use Rattle.laws.specs.Bits.{bit, join};
ghost use Rattle.laws.specs.Lists.{numbers};
ghost use Rattle.pattern.specs.Regex.{Regex};
ghost use Rattle.pattern.specs.Positions as Positions;
ghost use Rattle.piece.specs.Pieces.{piece_of, no_piece};

// "positions 1 to 31"
pub const POSITIONS: usize = 31;

#[derive(Clone, Copy, PartialEq, Eq)]
pub struct Piece {
    pub size: usize,
    pub empty: bool,
    pub begins: u32,
    pub ends: u32,
    // the variables that every word binds
    pub bound: u32,
    pub symbols: [u32; POSITIONS],
    pub follows: [u32; POSITIONS],
}

pub fn nothing() -> Piece
    ensures { result ≡ no_piece }
{
    Piece {
        size: 0,
        empty: false,
        begins: 0,
        ends: 0,
        bound: 0,
        symbols: [0; POSITIONS],
        follows: [0; POSITIONS],
    }
}

// The mask where the test passes, and the empty one where it fails.
pub fn given(t: bool, m: u32) -> u32
    ensures { result ≡ Positions.given t m }
{
    if t { m } else { 0 }
}

// Whether bit p of m is set.
pub fn has(m: u32, p: usize) -> bool
    requires { p ≤ Positions.occurrence_limit }
    ensures { result ≡ bit p m }
{
    (m >> p) & 1 == 1
}

// Each set with what `more` gives at its index joined.
fn with_more<F: Fn(usize) -> u32>(mut sets: [u32; POSITIONS], more: F) -> [u32; POSITIONS]
    requires { (i : ℕ) → i < Positions.occurrence_limit → F.pre more i }
    ensures { (f : ℕ → ℕ) → ((i r : ℕ) → i < Positions.occurrence_limit → F.post more i r → r ≡ f i)
        → result ≡ map (λ i. join (get_or sets i 0) (f i)) (numbers 0 Positions.occurrence_limit) }
{
    for i in 0..POSITIONS {
        sets[i] |= more(i);
    }
    sets
}

// Position by position, both sets joined.
pub fn joined(a: [u32; POSITIONS], b: [u32; POSITIONS]) -> [u32; POSITIONS]
    ensures { result ≡ map (λ i. join (get_or a i 0) (get_or b i 0)) (numbers 0 Positions.occurrence_limit) }
{
    with_more(a, |i| b[i])
}

// Every position of `ends` followed by those of `begins` too.
pub fn linked(follows: [u32; POSITIONS], ends: u32, begins: u32) -> [u32; POSITIONS]
    ensures { result ≡ map (λ i. join (get_or follows i 0) (Positions.given (bit (i + 1) ends) begins)) (numbers 0 Positions.occurrence_limit) }
{
    with_more(follows, |i| given(has(ends, i + 1), begins))
}

// The occurrence of symbol a, which binds `bound`, at position k.
pub fn literal(k: usize, a: u32, bound: u32) -> Piece
    requires { (1 ≤ k) × (k ≤ Positions.occurrence_limit) }
    ensures { (vars : ℕ → ℕ) → vars a ≡ bound → result ≡ piece_of vars (Regex.lit a) k }
{
    let mut symbols = [0; POSITIONS];
    symbols[k - 1] = a;
    let m = 1 << k;
    Piece {
        size: 1,
        begins: m,
        ends: m,
        bound,
        symbols,
        ..nothing()
    }
}
