// How a problem grows in its draft.
ghost use Rattle.std.specs.Prelude.{◌≡◌, ℕ, ◌<◌, ◌≤◌, true, ℤ, pos, is_err};
ghost use Rattle.family.specs.Numbers.{at};
ghost use Rattle.problem.specs.Tables.{row_data};
ghost use Rattle.problem.specs.Drafts.{Grown, fresh_problem, push_answer, with_quantities, with_new_row, problem_data};

use crate::matrix::Matrix;
use crate::new_row::NewRow;
use crate::row::Row;
use crate::table::Problem;
use family::fault::StateFault;
use family::sizes::ROWS;

impl Problem {
    // One quantity and no rows.
    pub(crate) fn fresh() -> Problem
        ensures { problem_data result ≡ fresh_problem }
    {
        Problem {
            n: 1,
            m: 0,
            rows: [Row::default(); ROWS],
            matrix: Matrix::default(),
        }
    }

    // Sets the number of quantities while there are no rows.
    pub(crate) fn set_quantities(&mut self, n: usize)
        requires some { 1 ≤ n }
        requires few { n ≤ 8 }
        requires none { self.old.m ≡ 0 }
        ensures { problem_data self.new ≡ with_quantities (problem_data self.old) n }
    {
        // The number of quantities is a plain number with its limits, as in a header.
        self.n = n;
    }

    // Fills the next free row and leaves every other; denied where all are in use.
    pub(crate) fn push(&mut self, new: NewRow) -> Result<(), StateFault>
        requires { (j : ℕ) → self.old.n ≤ j → at new.coefficients.numbers j ≡ pos 0 }
        ensures answer { result ≡ push_answer (problem_data self.old) }
        ensures after { Grown result (problem_data self.old) (problem_data self.new) (with_new_row (problem_data self.old) (row_data new.row) new.coefficients.numbers) }
        ensures denied { is_err result ≡ true → self.new ≡ self.old }
    {
        // What a denial leaves is said of this function's own state; no type holds it.
        if self.m >= ROWS {
            return Err(StateFault::Full);
        }
        // One row is lent and written, by the rule for the table; of `get_mut` it is not known that it leaves the other rows.
        let rows = &mut self.rows;
        let row = &mut rows[self.m];
        *row = new.row;
        self.matrix.write_row(self.m, &new.coefficients);
        self.m += 1;
        Ok(())
    }
}
