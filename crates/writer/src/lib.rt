// The bytes of rows, written into the lent buffer from a given place on. For the event call.
#![tactic(auto)]

ghost use Rattle.std.specs.Prelude.{◌≡◌, ◌+◌, ◌*◌, ◌≤◌, length, take};
ghost use Rattle.laws.specs.Lists.{gather};
ghost use Rattle.laws.specs.Parts.{front, splice};
ghost use Rattle.meaning.specs.Limits.{variable_limit};
ghost use Rattle.meaning.specs.Rows.{row_limit};
ghost use Rattle.rows.specs.Valuations.{valuations_in};
ghost use Rattle.row.specs.RowBytes.{row_size, bytes_of, with_values};

pub use row::ROW;
use row::RowFields;
use rows::Words;

// The first n rows over the beginning of a part. They share all fields but the values.
fn put_rows(out: &mut [u8], words: &Words, n: usize, shared: RowFields)
    requires { (shared.variables ≤ variable_limit) × (n ≤ row_limit) × (row_size * n ≤ length out.old) }
    ensures { out.new ≡ front (gather (λ σ. bytes_of (with_values shared σ)) (take n (valuations_in words.now))) out.old }
{
    for i in 0..n {
        let row = row::row_bytes(RowFields {
            values: rows::get(words, i),
            ..shared
        });
        let at = ROW * i;
        out[at..at + ROW].copy_from_slice(&row);
    }
}

// The first n rows from the place on; the bytes before it and after the last row stay.
pub fn write_rows(out: &mut [u8], place: usize, words: &Words, n: usize, shared: RowFields)
    requires { (shared.variables ≤ variable_limit) × (n ≤ row_limit) × (place + row_size * n ≤ length out.old) }
    ensures { out.new
        ≡ splice place (gather (λ σ. bytes_of (with_values shared σ)) (take n (valuations_in words.now))) out.old }
{
    put_rows(&mut out[place..], words, n, shared);
}
