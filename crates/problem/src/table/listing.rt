// The coefficients of one row.
ghost use Rattle.std.specs.Prelude.{◌≡◌};
ghost use Rattle.problem.specs.Drafts.{problem_data};
ghost use Rattle.problem.specs.Listings.{coefficients_of};

use crate::table::Problem;
use family::sizes::QUANTITIES;

impl Problem {
    // The eight coefficients of the row with this index; all 0 beyond the matrix.
    pub(crate) fn coefficients(&self, row: usize) -> [i32; QUANTITIES]
        ensures { result ≡ coefficients_of (problem_data self.now) row }
    {
        self.matrix.coefficients(row)
    }
}
