// Each part of the matcher alone, on fixed inputs: the event record, the disjunct, a set of disjuncts, a set past one symbol, the
// writer of rows. Counts the results that are right. The event is load(1,7), the constraint "variable 0 is 1, variable 1 is 7".
ghost use Rattle.demand.specs.Constraints.{Ready};

use crate::score::Score;
use demand::{Constraint, Demand};
use disjunct::Disjunct;
use row::RowFields;
use slot::Order;

// A buffer with one row in it, and bytes before and behind.
const BYTES: usize = 40;

fn records(s: &mut Score) {
    let Some(e) = record::decode(
        b"\x01\x02\x00\x00\x01\x00\x00\x00\x07\x00\x00\x00\x00\x00\x00\x00\x00\x00\x00\x00",
    ) else {
        return s.count(false);
    };
    s.count(true);
    s.count(e.kind == 1);
    s.count(e.count == 2);
    s.count_each(&e.args, &[1, 7, 0, 0]);
}

// Nineteen bytes, and a count of 5.
fn refused_records(s: &mut Score) {
    let short = record::decode(
        b"\x01\x02\x00\x00\x01\x00\x00\x00\x07\x00\x00\x00\x00\x00\x00\x00\x00\x00\x00",
    );
    let many = record::decode(
        b"\x01\x05\x00\x00\x01\x00\x00\x00\x07\x00\x00\x00\x00\x00\x00\x00\x00\x00\x00\x00",
    );
    s.count(short.is_none());
    s.count(many.is_none());
}

// Variable 0 has the value x, variable 1 the value y. The demand on variable 3 stands where none is counted.
fn demanding(x: u32, y: u32) -> Constraint
    ensures { Ready result }
{
    Constraint {
        count: 2,
        demands: [
            Demand {
                variable: 0,
                value: x,
            },
            Demand {
                variable: 1,
                value: y,
            },
            Demand {
                variable: 3,
                value: 9,
            },
            Demand {
                variable: 3,
                value: 9,
            },
        ],
    }
}

// The free disjunct met with the constraint.
fn bound() -> Option<Disjunct> {
    Disjunct::free().meet(Some(demanding(1, 7))).ok()
}

fn meetings(s: &mut Score) {
    let Some(d) = bound() else {
        return s.count(false);
    };
    s.count(true);
    s.count_each(&d.values(), &[1, 7, 0, 0]);
    s.count(d.meet(Some(demanding(1, 7))).is_ok());
    s.count(d.meet(Some(demanding(2, 7))).is_err());
}

fn insertions(s: &mut Score) {
    let Some(d) = bound() else {
        return s.count(false);
    };
    let mut words = [0; packed::WORDS];
    let n = sets::insert(&mut words, 0, d);
    s.count(n == Some(1));
    s.count(is_same(packed::get(&words, 0), Some(d)));
}

fn is_same(a: Disjunct, b: Option<Disjunct>) -> bool {
    b.is_some_and(|d| ordering::order(a, d) == Order::Same)
}

// The free disjunct past the constraint: one disjunct for each variable, the one without exclusions at variable 0 first. All that each says is
// that its variable is not the constraint's value.
fn skips(s: &mut Score) {
    let mut from = [0; packed::WORDS];
    let mut out = [0; packed::WORDS];
    packed::put(&mut from, 0, Disjunct::free());
    let n = skip::skip_by(&from, 1, Some(demanding(1, 7)), &mut out);
    s.count(n == Some(2));
    s.count(is_same(packed::get(&out, 0), Disjunct::free().exclude(1, 7).ok()));
    s.count(is_same(packed::get(&out, 1), Disjunct::free().exclude(0, 1).ok()));
}

// The met disjunct past the constraint: none.
fn skips_none(s: &mut Score) {
    let Some(d) = bound() else {
        return s.count(false);
    };
    let mut from = [0; packed::WORDS];
    let mut out = [0; packed::WORDS];
    packed::put(&mut from, 0, d);
    let n = skip::skip_by(&from, 1, Some(demanding(1, 7)), &mut out);
    s.count(n == Some(0));
}

// One row from place 3 on: event number 5, two variables, 4 and 1 in bytes 5 and 6; the bytes before and after stay 9.
fn written(s: &mut Score) {
    let mut words = [0; rows::WORDS];
    let n = rows::insert_row(&mut words, 0, [1, 7, 0, 0]);
    s.count(n == Some(1));
    let mut buffer = [9; BYTES];
    let shared = RowFields {
        number: 5,
        variables: 2,
        byte5: 4,
        byte6: 1,
        values: [0; 4],
    };
    writer::write_rows(&mut buffer, 3, &words, 1, shared);
    s.count_each(
        &buffer,
        b"\t\t\t\x05\x00\x00\x00\x02\x04\x01\x00\x01\x00\x00\x00\x07\x00\x00\x00\x00\x00\x00\x00\x00\x00\x00\x00\t\t\t\t\t\t\t\t\t\t\t\t\t",
    );
}

pub fn tried() -> Score {
    let mut s = Score::default();
    records(&mut s);
    refused_records(&mut s);
    meetings(&mut s);
    insertions(&mut s);
    skips(&mut s);
    skips_none(&mut s);
    written(&mut s);
    s
}
