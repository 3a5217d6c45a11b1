// Where a row's value stands between its ends.
ghost use Rattle.std.specs.Prelude.{◌≡◌, ℕ, ◌≤◌, ℤ, unsigned_abs};
ghost use Rattle.family.specs.Points.{any_point};
ghost use Rattle.problem.specs.Programs.{program};
ghost use Rattle.rows.specs.Rules.{value, scaled};
ghost use Rattle.rows.specs.Standings.{between, at_end, settled, position_of};

use crate::products::dot;
use family::point::Point;
use family::position::Position;
use family::side::Side;
use problem::row::Row;
use problem::table::Problem;

/// The value of a row at a point, beside q times its lower end and q times its upper end.
#[derive(Clone, Copy)]
pub struct Standing {
    pub value: i64,
    pub low: i64,
    pub high: i64,
    ghost value_near: { unsigned_abs value ≤ 400000000 },
    ghost low_near: { unsigned_abs low ≤ 10000000 },
    ghost high_near: { unsigned_abs high ≤ 10000000 },
}

// The value of a row at a point, the sum of coefficient times numerator.
fn value(problem: &Problem, row: usize, point: &Point) -> i64
    ensures value { result ≡ value (program problem.now) row (any_point point.now) }
    ensures near { unsigned_abs result ≤ 400000000 }
{
    dot::<50, 1_000_000, _, _>(
        problem.quantities(),
        |column| problem.coefficient(row, column),
        |column| point.numerator(column),
    )
}

impl Standing {
    // The standing of a row at a point.
    pub(crate) fn of(problem: &Problem, row: usize, point: &Point) -> Standing
        ensures value { result.value ≡ value (program problem.now) row (any_point point.now) }
        ensures low { result.low ≡ scaled (any_point point.now) ((program problem.now).lo row) }
        ensures high { result.high ≡ scaled (any_point point.now) ((program problem.now).hi row) }
    {
        let Row { lo, hi, .. } = problem.row(row);
        let q = point.denominator();
        Standing {
            value: value(problem, row, point),
            low: q * i64::from(lo),
            high: q * i64::from(hi),
        }
    }

    // Whether the value lies between the ends.
    pub(crate) fn keeps(self) -> bool
        ensures { result ≡ between self.value self.low self.high }
    {
        (self.low..=self.high).contains(&self.value)
    }

    // Whether the value is at an end.
    pub(crate) fn stands(self, side: Side) -> bool
        ensures { result ≡ at_end self.value self.low self.high side }
    {
        match side {
            Side::Lower => self.value == self.low,
            Side::Upper => self.value == self.high,
        }
    }

    // Whether a switch is where its side asks: at an end where it is free, at its fixed end where it is fixed.
    pub(crate) fn settled(self, side: Option<Side>) -> bool
        ensures { result ≡ settled self.value self.low self.high side }
    {
        // A match: `map_or_else` with two closures is no plainer.
        match side {
            None => self.stands(Side::Lower) || self.stands(Side::Upper),
            Some(side) => self.stands(side),
        }
    }

    // At which end the value is, or to which it is nearer.
    pub(crate) fn position(self) -> Position
        ensures { result ≡ position_of self.value self.low self.high }
    {
        match (self.stands(Side::Lower), self.stands(Side::Upper)) {
            (true, true) => Position::AtBoth,
            (true, false) => Position::AtLower,
            (false, true) => Position::AtUpper,
            (false, false) => {
                if 2 * self.value <= self.low + self.high {
                    Position::NearLower
                } else {
                    Position::NearUpper
                }
            }
        }
    }
}
