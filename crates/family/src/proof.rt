// A proof that a solver offers.
use crate::offered::Offered;
use crate::sizes::ROWS;

mod reading;

/// Multipliers y_i / s: a numerator for each row, over the scale s.
pub type Proof = Offered<ROWS, 1_000>;
