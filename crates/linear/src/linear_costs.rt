// A problem with linear costs.
use problem::rates::Rates;
use problem::table::Problem;

/// The problem whose cost is the sum of rate times quantity.
#[derive(Drop)]
pub struct LinearCosts {
    pub(crate) problem: Problem,
    pub(crate) rates: Rates,
}
