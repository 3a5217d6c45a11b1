// A row and the end at which it is fixed, as one number.
ghost use Rattle.std.specs.Prelude.{ℕ, ◌≤◌, unsigned_abs};

mod turning;

/// A row, counted from 1, that is fixed at its upper end if the number is positive and at its lower end if it is
/// negative; 0 fixes nothing.
#[derive(Clone, Copy)]
pub(crate) struct SignedRow {
    // The side is the sign: a rule of the project, as a stored node is two small numbers.
    number: i8,
    ghost small: { unsigned_abs number ≤ 16 },
}
