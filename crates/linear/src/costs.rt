// From a draft to the family, and the cost of a point.
ghost use Rattle.std.specs.Prelude.{◌≡◌, ℕ, ◌≤◌, ℤ, unsigned_abs};
ghost use Rattle.family.specs.Numbers.{at};
ghost use Rattle.family.specs.Points.{any_point};
ghost use Rattle.problem.specs.Programs.{program};
ghost use Rattle.rows.specs.Claims.{PlainMeaning};
ghost use Rattle.linear.specs.Bounds.{meaning_of};
ghost use Rattle.linear.specs.Costs.{rated_sum, cost};

use crate::linear_costs::LinearCosts;
use family::gap::Gap;
use family::point::Point;
use problem::cost::Linear;
use problem::draft::Draft;
use rows::products::dot;

impl LinearCosts {
    /// Uses up a draft and gives its problem with its rates, and its gap, as they stand. What the family means is
    /// plain: a point is admitted when it keeps every row with every switch at an end, a fixed one at its fixed end.
    pub fn from_draft(draft: Draft<Linear>) -> (LinearCosts, Gap)
        ensures problem { result.0.problem ≡ draft.problem }
        ensures rates { result.0.rates ≡ draft.rates }
        ensures gap { result.1 ≡ draft.gap }
        ensures plain { PlainMeaning (meaning_of (program result.0.problem) (at result.0.rates.numbers)) (program draft.problem) }
    {
        let (problem, rates, gap) = draft.into_parts();
        (LinearCosts { problem, rates }, gap)
    }

    // The sum of rate times numerator.
    fn rated_sum(&self, point: &Point) -> i64
        ensures value { result ≡ rated_sum (program self.now.problem) (at self.now.rates.numbers) (any_point point.now) }
        ensures near { unsigned_abs result ≤ 400000000 }
    {
        dot::<50, 1_000_000, _, _>(
            self.problem.quantities(),
            |column| self.rates.rate(column),
            |column| point.numerator(column),
        )
    }

    // The cost of a point: the sum of rate times quantity.
    pub(crate) fn cost(&self, point: &Point) -> (i64, i64)
        ensures { result ≡ cost (program self.now.problem) (at self.now.rates.numbers) (any_point point.now) }
    {
        (self.rated_sum(point), point.denominator())
    }
}
