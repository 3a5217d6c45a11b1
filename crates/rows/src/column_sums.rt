// The column sums of a proof.
ghost use Rattle.std.specs.Prelude.{◌≡◌, ℕ, ◌≤◌, ℤ, pos, unsigned_abs};
ghost use Rattle.family.specs.Numbers.{at, Small};
ghost use Rattle.family.specs.Points.{numerator_of};
ghost use Rattle.problem.specs.Programs.{program};
ghost use Rattle.sums.specs.Sums.{dot};
ghost use Rattle.rows.specs.Duals.{column_sum};
ghost use Rattle.rows.specs.Zeros.{all_zero};

use crate::products::dot;
use family::proof::Proof;
use family::sizes::QUANTITIES;
use problem::table::Problem;
use std::array;

/// The sums of all eight columns; those of columns that are not in use are 0.
#[derive(Clone, Copy)]
pub struct ColumnSums {
    pub(crate) sums: [i64; QUANTITIES],
    ghost near: { Small 800000 sums },
}

// The sum over the rows of coefficient times multiplier in one column. That of a column not in use is 0, and is not added up.
fn column_sum(problem: &Problem, proof: &Proof, column: usize) -> i64
    ensures value { result ≡ column_sum (program problem.now) (numerator_of proof.now) column }
    ensures near { unsigned_abs result ≤ 800000 }
{
    if column >= problem.quantities() {
        return 0;
    }
    dot::<50, 1_000, _, _>(
        problem.row_count(),
        |row| problem.coefficient(row, column),
        |row| proof.numerator(row),
    )
}

impl ColumnSums {
    /// The column sums of a proof.
    pub fn of(problem: &Problem, proof: &Proof) -> ColumnSums
        ensures sums { (j : ℕ) → at result.sums j ≡ column_sum (program problem.now) (numerator_of proof.now) j }
        ensures fillers { (j : ℕ) → (program problem.now).n ≤ j → at result.sums j ≡ pos 0 }
    {
        ColumnSums {
            sums: array::from_fn(|column| column_sum(problem, proof, column)),
        }
    }

    /// The sum of the column with this index, 0 beyond the eight.
    pub fn sum(&self, column: usize) -> i64
        ensures value { result ≡ at self.now.sums column }
        ensures near { unsigned_abs result ≤ 800000 }
    {
        self.sums.get(column).copied().unwrap_or(0)
    }

    /// Whether all sums are 0.
    pub fn all_zero(&self) -> bool
        ensures { result ≡ all_zero 8 (at self.now.sums) }
    {
        self.sums.iter().all(|sum| *sum == 0)
    }

    /// The sum of the squares of the column sums.
    pub fn square_sum(&self) -> i64
        ensures value { result ≡ dot 8 (at self.now.sums) (at self.now.sums) }
        ensures near { unsigned_abs result ≤ 5120000000000 }
    {
        let sum = |column| self.sum(column);
        dot::<800_000, 800_000, _, _>(QUANTITIES, sum, sum)
    }
}
