// A tally in three lent words, taken out of them and put into them. For the lent calls.
#![tactic(auto)]

ghost use Rattle.std.specs.Prelude.{◌≡◌, length};
ghost use Rattle.blocks.specs.TallyBlock.{tally_size, tally_in, tally_words};

use tally::Tally;

// The words of a tally.
pub const WORDS: usize = 3;

#[tactic(auto, unfolding(blocks::specs::TallyBlock::tally_in))]
pub fn tally_in(words: &[u64]) -> Tally
    requires { length words.now ≡ tally_size }
    ensures { result ≡ tally_in words.now }
{
    Tally {
        accepted: words[0],
        refused: words[1],
        rows: words[2],
    }
}

#[tactic(auto, unfolding(blocks::specs::TallyBlock::tally_words))]
pub fn put_tally(words: &mut [u64], t: Tally)
    requires { length words.old ≡ tally_size }
    ensures { words.new ≡ tally_words t }
{
    words.copy_from_slice(&[t.accepted, t.refused, t.rows]);
}
