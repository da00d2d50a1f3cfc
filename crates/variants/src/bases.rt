// The books whose texts are edited: document 01's two, and others that meet its limits, use all of its signs, have names like its own
// words, or fixed numbers of all sizes beside the other arguments, and one alone; and the texts of a number with many zeros. For the
// program `texts`.
ghost use Rattle.std.specs.Prelude.{◌≡◌, ◌≤◌, ◌<◌, ◌+◌, ℕ, length, drop};

use arrayvec::ArrayVec;

// The bytes that a text has places for: as many as the longest has, more than any base text after its edits.
pub const ROOM: usize = 4105;

pub type Text = ArrayVec<u8, ROOM>;

pub const BASES: [&str; 11] = [
    "vars d s\nsym load 1 d s\nsym drop 2 d\nsym clean 3 d\nmatch load drop+\n",
    "vars d s\nsym open 5 d\nsym fill 1 d s\nsym seal 6 d s\nmatch open seal\n",
    "vars d dd abcdefghijkl z9\nsym a 255 abcdefghijkl d z9 dd\nsym b2345678901z 1 d _ d _\nsym c 20 d\nsym e 19 d\nsym f 4 z9\nsym g 99 dd\nsym h 6 d\nsym i 7\nsym j 8\nsym k 9\nsym l 10\nsym m 11\nsym n 12\nsym o 13\nsym p 254 _ _ _ _\nsym q 100 dd dd dd dd\nmatch b2345678901z* (a | q | q) a\n",
    "vars d\nsym a 1 d\nsym aa 2 d\nsym b 3 d d\nmatch ((((((((((((((((a)b)a)b)a)b)aa)b)a)b)a)b)a)b)a)b)a b a b a b a b a b a b a b aa\n",
    "vars a b\nsym x 1 a\nsym y 2 b\nsym z 3 b a\nmatch   (x+ y? (y)+|(z)*? z)* ( x | z ) +z*(y|x y)?  y \n",
    "vars\nsym a 1 _\nsym b 1 _\nmatch a b\n",
    "vars d s\nsym a 10 d _ d s\nsym b 2 _ s\nsym c 3 _ _\nmatch (a|b a) b?|a c+\n",
    "vars vars\nsym sym 1 vars\nsym match 2 vars\nmatch match sym\n",
    "vars a b c e\nsym p 1 a b\nsym q 2 c e\nsym r 3 b c\nsym s 4 e a\nmatch (p q|q p|(r s)+|s+ r)p?((r|q))+\n",
    "vars d dd\nsym a 1 =0 dd\nsym b 2 =4294967295 d =10\nsym c 3 =3\nsym e 255 dd =429496729 _ =99\nmatch (a|e) c* b\n",
    "vars\nsym a 1 =3\nmatch a\n",
];

// Bytes behind those of a text, as far as they have places.
pub fn append(text: &mut Text, bytes: &[u8]) {
    let fits = bytes.get(..text.remaining_capacity()).unwrap_or(bytes);
    let _ = text.try_extend_from_slice(fits);
}

fn repeat(text: &mut Text, byte: u8, count: usize) {
    for _ in 0..count {
        let _ = text.try_push(byte);
    }
}

// Bytes behind n others of a lent buffer, as far as they have places: how many there are then.
pub fn put(out: &mut [u8], n: usize, bytes: &[u8]) -> usize
    requires { n ≤ length out.old }
    ensures size { length out.new ≡ length out.old }
    ensures within { result ≤ length out.new }
    ensures before { n ≤ result }
    ensures all { n + length bytes.now ≤ length out.old → result ≡ n + length bytes.now }
    ensures behind { (m : ℕ) → result ≤ m → drop m out.new ≡ drop m out.old }
{
    let k = bytes.len().min(out.len() - n);
    out[n..n + k].copy_from_slice(&bytes[..k]);
    n + k
}

// The same with one byte, so many times.
fn fill(out: &mut [u8], n: usize, byte: u8, count: usize) -> usize
    requires { n ≤ length out.old }
    ensures size { length out.new ≡ length out.old }
    ensures within { result ≤ length out.new }
    ensures before { n ≤ result }
    ensures all { n + count ≤ length out.old → result ≡ n + count }
    ensures behind { (m : ℕ) → result ≤ m → drop m out.new ≡ drop m out.old }
{
    let k = count.min(out.len() - n);
    out[n..n + k].fill(byte);
    n + k
}

// A book with the fixed number 1 and so many zeros: it is out of range from ten zeros on, and where a sum of 32 or 64 bits wrapped it would
// be 0 from 32 or 64 zeros on.
pub fn zeros(count: usize, text: &mut Text) {
    text.clear();
    append(text, b"vars\nsym a 1 =1");
    repeat(text, b'0', count);
    append(text, b"\nmatch a\n");
}

// The same in a lent buffer, as far as it has places: how many bytes are written.
pub fn zeros_into(count: usize, out: &mut [u8]) -> usize
    ensures size { length out.new ≡ length out.old }
    ensures within { result ≤ length out.new }
    ensures all { count + 24 ≤ length out.old → result ≡ count + 24 }
    ensures behind { drop result out.new ≡ drop result out.old }
{
    let n = put(out, 0, b"vars\nsym a 1 =1");
    let n = fill(out, n, b'0', count);
    put(out, n, b"\nmatch a\n")
}

// The first book with so many spaces before its last LF that its text has this many bytes before that.
pub fn spaces(size: usize, text: &mut Text) {
    text.clear();
    append(text, BASES[0].trim_end().as_bytes());
    text.truncate(size);
    repeat(text, b' ', size.saturating_sub(text.len()));
    append(text, b"\n");
}

// The same in a lent buffer, as far as it has places: how many bytes are written.
pub fn spaces_into(size: usize, out: &mut [u8]) -> usize
    ensures size { length out.new ≡ length out.old }
    ensures within { result ≤ length out.new }
    ensures all { size < length out.old → result ≡ size + 1 }
    ensures behind { drop result out.new ≡ drop result out.old }
{
    let base = BASES[0].trim_end().as_bytes();
    let n = put(out, 0, base.get(..size).unwrap_or(base));
    let n = fill(out, n, b' ', size.saturating_sub(n));
    put(out, n, b"\n")
}
