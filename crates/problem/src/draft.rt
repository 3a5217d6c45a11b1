// A problem while it is written.
ghost use Rattle.std.specs.Prelude.{◌≡◌, ℕ, ◌≤◌, pos};
ghost use Rattle.family.specs.Numbers.{at};

use crate::rates::Rates;
use crate::table::Problem;
use family::gap::Gap;

mod listing;
mod writing;

/// A problem of a chosen cost, with its gap and cost rates, to which rows are added. Rates beyond its quantities
/// are 0.
#[derive(Drop)]
pub struct Draft<C> {
    cost: C,
    gap: Gap,
    rates: Rates,
    problem: Problem,
    ghost fillers: { ((j : ℕ) → problem.n ≤ j → at rates.numbers j ≡ pos 0) },
}
