// One row of a problem, but for its coefficients.
ghost use Rattle.std.specs.Prelude.{◌≤◌, ◌≤ℤ◌, unsigned_abs};

use crate::kind::Kind;

mod blank;

/// A kind and two ends in their order, from -10000 to 10000.
#[derive(Clone, Copy)]
pub struct Row {
    pub kind: Kind,
    pub lo: i32,
    pub hi: i32,
    ghost low: { unsigned_abs lo ≤ 10000 },
    ghost high: { unsigned_abs hi ≤ 10000 },
    ghost ordered: { lo ≤ℤ hi },
}
