// A least-squares problem.
use problem::table::Problem;

/// The problem whose cost is the sum of squares of the quantities.
#[derive(Drop)]
pub struct LeastSquares {
    pub(crate) problem: Problem,
}
