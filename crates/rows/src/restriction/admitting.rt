// The ends of rows under sides, and which points are admitted.
ghost use Rattle.std.specs.Prelude.{◌≡◌, ℕ, ◌<◌, ◌≤◌, ℤ, IfSome, unsigned_abs};
ghost use Rattle.family.specs.Points.{any_point};
ghost use Rattle.family.specs.Reading.{side_of};
ghost use Rattle.problem.specs.Programs.{program};
ghost use Rattle.rows.specs.Rules.{passes, stopper, admission, low_end, high_end};

use crate::restriction::Restriction;
use crate::standing::Standing;
use family::fault::PointFault;
use family::point::Point;
use family::side::Side;
use problem::kind::Kind;
use problem::row::Row;

impl Restriction<'_> {
    // Whether a row lets a point through.
    fn passes(&self, row: usize, point: &Point) -> bool
        ensures { result ≡ passes (program self.now.problem.now) (side_of self.now.sides) (any_point point.now) row }
    {
        let standing = Standing::of(self.problem, row, point);
        match self.problem.row(row).kind {
            Kind::Plain => standing.keeps(),
            Kind::Switch => standing.keeps() && standing.settled(self.sides.side(row)),
        }
    }

    // The index of the least row that stops a point; None where the point is admitted.
    fn stopper(&self, point: &Point) -> Option<usize>
        ensures least { result ≡ stopper (program self.now.problem.now) (side_of self.now.sides) (any_point point.now) 0 (program self.now.problem.now).m }
        ensures few { IfSome result (λ i. i < 16) }
    {
        (0..self.problem.row_count()).find(|&row| !self.passes(row, point))
    }

    /// Admits a point, or tells the least row that stops it.
    pub fn admit(&self, point: &Point) -> Result<(), PointFault>
        ensures { result ≡ admission (program self.now.problem.now) (side_of self.now.sides) (any_point point.now) }
    {
        // A match: None is the good case here, which `map_or` would hide.
        match self.stopper(point) {
            None => Ok(()),
            Some(index) => Err(PointFault::NotAdmitted { row: index + 1 }),
        }
    }

    /// The two ends of a row: both count as the fixed end where a switch is fixed.
    pub fn ends(&self, row: usize) -> (i64, i64)
        ensures low { result.0 ≡ low_end (program self.now.problem.now) (side_of self.now.sides) row }
        ensures high { result.1 ≡ high_end (program self.now.problem.now) (side_of self.now.sides) row }
        ensures low_near { unsigned_abs result.0 ≤ 10000 }
        ensures high_near { unsigned_abs result.1 ≤ 10000 }
    {
        let Row { kind, lo, hi } = self.problem.row(row);
        let (lo, hi) = (i64::from(lo), i64::from(hi));
        match (kind, self.sides.side(row)) {
            (Kind::Plain, _) | (Kind::Switch, None) => (lo, hi),
            (Kind::Switch, Some(Side::Lower)) => (lo, lo),
            (Kind::Switch, Some(Side::Upper)) => (hi, hi),
        }
    }
}
