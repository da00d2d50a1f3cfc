// The bytes of one row. For the writer of rows.
#![tactic(auto)]

ghost use Rattle.std.specs.Prelude.{◌≡◌, ◌≤◌};
ghost use Rattle.meaning.specs.Limits.{variable_limit};
ghost use Rattle.row.specs.RowBytes.{bytes_of};

use rows::Valuation;

// "Row, 24 bytes, no header"
pub const ROW: usize = 24;

// What a row says: the event number, the variable count, bytes 5 and 6, which are zero in every row that is written, and a value for each variable.
#[derive(Clone, Copy)]
pub struct RowFields {
    pub number: u32,
    pub variables: usize,
    pub byte5: u8,
    pub byte6: u8,
    pub values: Valuation,
}

// One row: the event number, the variable count, bytes 5 and 6, a zero and four values, little-endian.
pub fn row_bytes(r: RowFields) -> [u8; ROW]
    requires { r.variables ≤ variable_limit }
    ensures { result ≡ bytes_of r }
{
    let mut row = [0; ROW];
    row[..4].copy_from_slice(&r.number.to_le_bytes());
    row[4] = r.variables as u8;
    row[5] = r.byte5;
    row[6] = r.byte6;
    let [a, b, c, d] = r.values;
    row[8..12].copy_from_slice(&a.to_le_bytes());
    row[12..16].copy_from_slice(&b.to_le_bytes());
    row[16..20].copy_from_slice(&c.to_le_bytes());
    row[20..].copy_from_slice(&d.to_le_bytes());
    row
}
