// A point that a solver offers.
use crate::offered::Offered;
use crate::sizes::QUANTITIES;

mod reading;

/// The quantities p_j / q: a numerator for each quantity, over the denominator q.
pub type Point = Offered<QUANTITIES, 1_000_000>;
