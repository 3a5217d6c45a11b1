// Making, reading and writing coefficients.
ghost use Rattle.std.specs.Prelude.{◌≡◌, ℕ, ◌<◌, ◌≤◌, cond, replicate, ℤ, pos, nat_lt, unsigned_abs, MatchOption};
ghost use Rattle.problem.specs.Tables.{cell, row_cells, with_row};

use crate::coefficients::Coefficients;
use crate::matrix::Matrix;
use family::sizes::{QUANTITIES, ROWS};

impl Default for Matrix {
    ghost is_default = { λ m. m.cells ≡ replicate 128 (pos 0) };

    fn default() -> Matrix {
        Matrix {
            cells: [0; ROWS * QUANTITIES],
        }
    }
}

impl Matrix {
    // The eight coefficients of this row; None beyond the matrix.
    fn row(&self, row: usize) -> Option<&[i32]>
        ensures { MatchOption result (16 ≤ row) (λ xs. (row < 16) × (xs.now ≡ row_cells self.now.cells row)) }
    {
        if row >= ROWS {
            return None;
        }
        let first = QUANTITIES * row;
        Some(&self.cells[first..first + QUANTITIES])
    }

    // The coefficient in this row and column; 0 beyond the matrix.
    pub(crate) fn cell(&self, row: usize, column: usize) -> i64
        ensures { result ≡ cond (nat_lt column 8) (cell self.now.cells row column) (pos 0) }
    {
        let cell = self.row(row).and_then(|cells| cells.get(column));
        cell.copied().map_or(0, i64::from)
    }

    // The eight coefficients of this row; all 0 beyond the matrix.
    pub(crate) fn coefficients(&self, row: usize) -> [i32; QUANTITIES]
        ensures { result ≡ cond (nat_lt row 16) (row_cells self.now.cells row) (replicate 8 (pos 0)) }
    {
        // Copied, and not by `try_from`, which would answer a Result that cannot fail here.
        let mut coefficients = [0; QUANTITIES];
        if let Some(cells) = self.row(row) {
            coefficients.copy_from_slice(cells);
        }
        coefficients
    }

    // Writes the eight coefficients of one row, and leaves every other.
    pub(crate) fn write_row(&mut self, row: usize, coefficients: &Coefficients)
        requires { row < 16 }
        ensures { self.new.cells ≡ with_row self.old.cells row coefficients.now.numbers }
    {
        // An index with its limit and no type of its own: it would be made by the one caller and taken apart here.
        let from = QUANTITIES * row;
        self.cells[from..from + QUANTITIES].copy_from_slice(&coefficients.numbers);
    }
}
