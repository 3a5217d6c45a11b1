// What a proof's multipliers make of the columns and of the rows' ends.
ghost use Rattle.std.specs.Prelude.{◌≡◌, ◌≤◌, ◌&&◌, pos, int_lt, unsigned_abs};
ghost use Rattle.family.specs.Numbers.{at};
ghost use Rattle.rows.specs.Zeros.{all_zero};

use crate::column_sums::ColumnSums;

mod reading;

/// The column sums and the level of a proof.
#[derive(Clone, Copy)]
pub struct Duals {
    pub columns: ColumnSums,
    pub level: i64,
    ghost near: { unsigned_abs level ≤ 160000000 },
}

/// Whether a proof with these column sums and this level is void: it shows that no point is admitted.
pub fn is_void(columns: &ColumnSums, level: i64) -> bool
    ensures { result ≡ (all_zero 8 (at columns.now.sums) && int_lt level (pos 0)) }
{
    // Not a method of `Duals`, whose level has a limit: this takes any level.
    columns.all_zero() && level < 0
}
