// What a problem holds.
ghost use Rattle.std.specs.Prelude.{◌≡◌, ℕ, ◌≤◌, ℤ, unsigned_abs};
ghost use Rattle.problem.specs.Programs.{program};
ghost use Rattle.problem.specs.Tables.{row_at};

use crate::row::Row;
use crate::table::Problem;

impl Problem {
    /// The number of quantities, n.
    pub fn quantities(&self) -> usize
        ensures value { result ≡ (program self.now).n }
        ensures some { 1 ≤ result }
        ensures few { result ≤ 8 }
    {
        // A plain number with its limits: it is read as a count wherever it is used.
        self.n
    }

    /// The number of rows, m.
    pub fn row_count(&self) -> usize
        ensures value { result ≡ (program self.now).m }
        ensures few { result ≤ 16 }
    {
        self.m
    }

    /// The row with this index; a plain row with both ends 0 beyond the table.
    pub fn row(&self, index: usize) -> Row
        ensures kind { result.kind ≡ (program self.now).kind index }
        ensures lo { result.lo ≡ (program self.now).lo index }
        ensures hi { result.hi ≡ (program self.now).hi index }
    {
        self.rows.get(index).copied().unwrap_or_default()
    }

    /// The coefficient in this row and column; 0 beyond the matrix.
    pub fn coefficient(&self, row: usize, column: usize) -> i64
        ensures value { result ≡ (program self.now).coefficient row column }
        ensures small { unsigned_abs result ≤ 50 }
    {
        self.matrix.cell(row, column)
    }
}
