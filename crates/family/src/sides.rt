// Which switch rows are fixed, and at which end.
ghost use Rattle.std.specs.Prelude.{◌≡◌, bit_and};

mod fixing;

/// For each of sixteen rows: free, fixed at lower or fixed at upper. Bit k of a mask speaks of the row with
/// index k, and no row is in both masks.
#[derive(Clone, Copy, Debug, PartialEq, Eq)]
pub struct Sides {
    lower: u16,
    upper: u16,
    ghost apart: { bit_and lower upper ≡ 0 },
}
