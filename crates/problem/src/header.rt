// The numbers of a header.
ghost use Rattle.std.specs.Prelude.{ℕ, ◌≤◌};

use crate::rates::Rates;
use family::gap::Gap;

mod reading;

/// The number of quantities, the gap and the cost rates that a list of ten numbers gives.
#[derive(Drop)]
pub struct Header {
    // A plain number with its limits, here and in a problem: a type of its own would be taken apart at each use.
    pub n: usize,
    pub gap: Gap,
    pub rates: Rates,
    ghost some: { 1 ≤ n },
    ghost few: { n ≤ 8 },
}
