// A word looked up among the declared names, by their places in the text. For the readers of lines and patterns.
#![tactic(auto)]

ghost use Rattle.std.specs.Prelude.{◌≡◌, true, map, ◌≤◌, length};
ghost use Rattle.laws.specs.Lists.{all};
ghost use Rattle.form.specs.Scan.{part};
ghost use Rattle.table.specs.Tables.{span_of, inside};
ghost use Rattle.lookup.specs.Found.{found};

use table::Name;

// The number of the first of the names that is the word from p to e.
pub fn find(s: &[u8], names: &[Name], p: usize, e: usize) -> Option<usize>
    requires { (p ≤ e) × (e ≤ length s.now) × (all (inside (length s.now)) (map span_of names.now) ≡ true) }
    ensures { result ≡ found s.now (map span_of names.now) (part s.now p e) }
{
    for (i, n) in names.iter().enumerate() {
        if s[n.start..n.start + n.size] == s[p..e] {
            return Some(i);
        }
    }
    None
}
