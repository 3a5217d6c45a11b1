// Row values, positions and which row stops a point.
#![tactic(auto)]

ghost use Rattle.std.specs.Prelude.{◌≡◌};
ghost use Rattle.family.specs.Points.{any_point};
ghost use Rattle.problem.specs.Programs.{program};
ghost use Rattle.rows.specs.Rules.{switch_at, position};

use family::point::Point;
use family::position::Position;
use problem::kind::Kind;
use problem::table::Problem;

pub mod column_sums;
pub mod duals;
pub mod products;
pub mod restriction;
mod standing;

use standing::Standing;

/// The numbers of quantities and of rows.
pub fn size(problem: &Problem) -> (usize, usize)
    ensures quantities { result.0 ≡ (program problem.now).n }
    ensures rows { result.1 ≡ (program problem.now).m }
{
    (problem.quantities(), problem.row_count())
}

/// Whether the row with this index is a switch; a row beyond the problem's rows is none.
pub fn is_switch(problem: &Problem, row: usize) -> bool
    ensures { result ≡ switch_at (program problem.now) row }
{
    row < problem.row_count() && problem.row(row).kind == Kind::Switch
}

/// Where a row stands at a point. Every row is answered by the rule for switches: a plain row by its own two
/// ends, and a row beyond the table, whose value and ends are 0, as at both ends.
pub fn position(problem: &Problem, row: usize, point: &Point) -> Position
    ensures { result ≡ position (program problem.now) row (any_point point.now) }
{
    Standing::of(problem, row, point).position()
}
