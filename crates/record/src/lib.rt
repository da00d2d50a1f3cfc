// The event record: 20 lent bytes to an event, or none where they are out of form. For the event call.
#![tactic(auto)]

ghost use Rattle.std.specs.Prelude.{◌≡◌, ◌+◌, ◌≤◌, eqb, length, drop};
ghost use Rattle.laws.specs.Lists.{all};
ghost use Rattle.record.specs.Records.{word_at, decoded};

// "Event record, 20 bytes", "four unsigned 32-bit little-endian arguments"
pub const RECORD: usize = 20;

pub const ARGUMENTS: usize = 4;

// An event: its kind and the first `count` of its arguments; those beyond the count are 0.
#[derive(Clone, Copy, PartialEq, Eq)]
pub struct Event {
    pub kind: u32,
    pub count: usize,
    pub args: [u32; ARGUMENTS],
}

// Four bytes, little-endian.
fn word(s: &[u8], at: usize) -> u32
    requires { at + 4 ≤ length s.now }
    ensures { result ≡ word_at s.now at }
{
    u32::from_le_bytes([s[at], s[at + 1], s[at + 2], s[at + 3]])
}

// Whether all arguments from number `from` on are zero.
fn zero_from(args: [u32; ARGUMENTS], from: usize) -> bool
    ensures { result ≡ all (eqb 0) (drop from args) }
{
    args.iter().skip(from).all(|x| *x == 0)
}

// The event in a record, or none where it is out of form.
pub fn decode(s: &[u8]) -> Option<Event>
    ensures { result ≡ decoded s.now }
{
    if s.len() != RECORD {
        return None;
    }
    let kind = u32::from(s[0]);
    let count = usize::from(s[1]);
    if kind == 0 || ARGUMENTS < count || s[2] != 0 || s[3] != 0 {
        return None;
    }
    let args = [word(s, 4), word(s, 8), word(s, 12), word(s, 16)];
    if !zero_from(args, count) {
        return None;
    }
    Some(Event { kind, count, args })
}
