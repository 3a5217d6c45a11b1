// The rows of a problem.
ghost use Rattle.std.specs.Prelude.{◌≡◌, ℕ, ◌*◌, ◌%◌, ◌≤◌, ℤ, pos};
ghost use Rattle.family.specs.Numbers.{at};

use crate::matrix::Matrix;
use crate::row::Row;
use family::sizes::ROWS;

mod growing;
mod listing;
mod reading;

/// n quantities and m rows. What is not in use of the table and the matrix is blank.
#[derive(Drop)]
pub struct Problem {
    // A plain number with its limits, as in a header: a type of its own would be taken apart at each use.
    n: usize,
    // A count beside a table with room for every row, by the rule that a draft keeps a table of rows in fixed memory.
    m: usize,
    rows: [Row; ROWS],
    matrix: Matrix,
    ghost some: { 1 ≤ n },
    ghost few: { n ≤ 8 },
    ghost fits: { m ≤ 16 },
    ghost unused: { ((k : ℕ) → 8 * m ≤ k → at matrix.cells k ≡ pos 0) },
    ghost fillers: { ((k : ℕ) → n ≤ k % 8 → at matrix.cells k ≡ pos 0) },
}
