// Words of one lent block copied over part of another. What blocks of words say of a book, a state and a tally is defined in specs/.
#![tactic(auto)]

ghost use Rattle.std.specs.Prelude.{◌≡◌, ◌≤◌, length};
ghost use Rattle.laws.specs.Parts.{front};

// All of one part over the beginning of another.
#[tactic(auto, unfolding(laws::specs::Parts::front))]
pub fn copy(from: &[u32], to: &mut [u32])
    requires { length from.now ≤ length to.old }
    ensures { to.new ≡ front from.now to.old }
{
    to[..from.len()].copy_from_slice(from);
}
