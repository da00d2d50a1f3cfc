// Larger fragments of a pattern as masks, from smaller ones: sequence, alternation, repetition. For the reader of patterns.
#![tactic(auto)]

ghost use Rattle.std.specs.Prelude.{◌≡◌, ℕ, ◌+◌, ◌≤◌};
ghost use Rattle.pattern.specs.Regex.{Regex};
ghost use Rattle.pattern.specs.Positions as Positions;
ghost use Rattle.piece.specs.Pieces.{piece_of};

use piece::Piece;

// One fragment and the next behind it.
pub fn sequence(x: Piece, y: Piece) -> Piece
    requires { (x.size ≤ Positions.occurrence_limit) × (y.size ≤ Positions.occurrence_limit) }
    ensures { (vars : ℕ → ℕ) (a b : Regex) (k : ℕ) → x ≡ piece_of vars a k → y ≡ piece_of vars b (k + Positions.size a)
        → result ≡ piece_of vars (Regex.cat a b) k }
{
    let both = piece::joined(x.follows, y.follows);
    Piece {
        size: x.size + y.size,
        empty: x.empty && y.empty,
        begins: x.begins | piece::given(x.empty, y.begins),
        ends: piece::given(y.empty, x.ends) | y.ends,
        bound: x.bound | y.bound,
        symbols: piece::joined(x.symbols, y.symbols),
        follows: piece::linked(both, x.ends, y.begins),
    }
}

// One fragment or the other.
pub fn either(x: Piece, y: Piece) -> Piece
    requires { (x.size ≤ Positions.occurrence_limit) × (y.size ≤ Positions.occurrence_limit) }
    ensures { (vars : ℕ → ℕ) (a b : Regex) (k : ℕ) → x ≡ piece_of vars a k → y ≡ piece_of vars b (k + Positions.size a)
        → result ≡ piece_of vars (Regex.alt a b) k }
{
    Piece {
        size: x.size + y.size,
        empty: x.empty || y.empty,
        begins: x.begins | y.begins,
        ends: x.ends | y.ends,
        bound: x.bound & y.bound,
        symbols: piece::joined(x.symbols, y.symbols),
        follows: piece::joined(x.follows, y.follows),
    }
}

// One or more, or none.
pub fn star(x: Piece) -> Piece
    ensures { (vars : ℕ → ℕ) (a : Regex) (k : ℕ) → x ≡ piece_of vars a k → result ≡ piece_of vars (Regex.star a) k }
{
    optional(plus(x))
}

pub fn plus(x: Piece) -> Piece
    ensures { (vars : ℕ → ℕ) (a : Regex) (k : ℕ) → x ≡ piece_of vars a k → result ≡ piece_of vars (Regex.plus a) k }
{
    Piece {
        follows: piece::linked(x.follows, x.ends, x.begins),
        ..x
    }
}

pub fn optional(x: Piece) -> Piece
    ensures { (vars : ℕ → ℕ) (a : Regex) (k : ℕ) → x ≡ piece_of vars a k → result ≡ piece_of vars (Regex.opt a) k }
{
    Piece {
        empty: true,
        bound: 0,
        ..x
    }
}
