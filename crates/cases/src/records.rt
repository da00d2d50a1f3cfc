// Records of events with one or two arguments below 256, for the public calls and the full pool.
use record::RECORD;

// The bytes of a record that matter: kind, count, two arguments.
pub type Bytes = [u8; 4];

pub fn written(bytes: Bytes) -> [u8; RECORD] {
    let mut r = [0; RECORD];
    r[0] = bytes[0];
    r[1] = bytes[1];
    r[4] = bytes[2];
    r[8] = bytes[3];
    r
}
