// From a draft to the family, and the cost of a point.
ghost use Rattle.std.specs.Prelude.{◌≡◌, ℕ, ◌≤◌, ℤ, unsigned_abs};
ghost use Rattle.family.specs.Points.{any_point};
ghost use Rattle.problem.specs.Programs.{program};
ghost use Rattle.rows.specs.Claims.{PlainMeaning};
ghost use Rattle.squares.specs.Bounds.{meaning_of};
ghost use Rattle.squares.specs.Costs.{square_sum, cost};

use crate::least_squares::LeastSquares;
use family::gap::Gap;
use family::point::Point;
use problem::cost::Squares;
use problem::draft::Draft;
use rows::products::dot;

impl LeastSquares {
    /// Uses up a draft and gives its problem and its gap, as they stand. What the family means is plain: a point is
    /// admitted when it keeps every row with every switch at an end, a fixed one at its fixed end.
    pub fn from_draft(draft: Draft<Squares>) -> (LeastSquares, Gap)
        ensures problem { result.0.problem ≡ draft.problem }
        ensures gap { result.1 ≡ draft.gap }
        ensures plain { PlainMeaning (meaning_of (program result.0.problem)) (program draft.problem) }
    {
        let (problem, _, gap) = draft.into_parts();
        (LeastSquares { problem }, gap)
    }

    // The sum of the squares of the numerators.
    fn square_sum(&self, point: &Point) -> i64
        ensures value { result ≡ square_sum (program self.now.problem) (any_point point.now) }
        ensures near { unsigned_abs result ≤ 8000000000000 }
    {
        let numerator = |column| point.numerator(column);
        dot::<1_000_000, 1_000_000, _, _>(self.problem.quantities(), numerator, numerator)
    }

    // The cost of a point: the sum of squares of its quantities.
    pub(crate) fn cost(&self, point: &Point) -> (i64, i64)
        ensures { result ≡ cost (program self.now.problem) (any_point point.now) }
    {
        let q = point.denominator();
        (self.square_sum(point), q * q)
    }
}
