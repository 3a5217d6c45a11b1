// The coefficients of a problem.
ghost use Rattle.family.specs.Numbers.{Small};

use family::sizes::{QUANTITIES, ROWS};

mod cells;

/// Sixteen rows of eight coefficients; row r, column j stands at 8r + j, both counted from 0.
#[derive(Drop)]
pub struct Matrix {
    // Flat, by the rule for the matrix.
    cells: [i32; ROWS * QUANTITIES],
    ghost small: { Small 50 cells },
}
