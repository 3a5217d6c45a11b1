// Where to split next.
ghost use Rattle.std.specs.Prelude.{◌≡◌, ℕ};
ghost use Rattle.family.specs.Points.{any_point};
ghost use Rattle.family.specs.Reading.{side_of};
ghost use Rattle.search.specs.Advising.{nearer, advised_at, advice};
ghost use Rattle.search.specs.Shows.{Shows};
ghost use Rattle.search.specs.Tally.{Tally};

use crate::advice::Advice;
use crate::search::Search;
use family::Family;
use family::fault::Fault;
use family::point::Point;
use family::position::Position;
use family::side::Side;
use family::sides::Sides;

// The nearer side of a row that stands at no end.
fn nearer(position: Position) -> Option<Side>
    ensures { result ≡ nearer position }
{
    match position {
        Position::AtBoth | Position::AtLower | Position::AtUpper => None,
        Position::NearLower => Some(Side::Lower),
        Position::NearUpper => Some(Side::Upper),
    }
}

impl<F: Family> Search<F> {
    // The side to name where the row is a free switch at no end.
    fn advised_at(&self, sides: Sides, point: &Point, row: usize) -> Option<Side>
        ensures { result ≡ advised_at (F.Family.meaning self.now.family) (side_of sides) (any_point point.now) row }
    {
        if self.family.is_switch(row) && sides.side(row).is_none() {
            nearer(self.family.position(row, point))
        } else {
            None
        }
    }

    /// The least switch row that is free at the current node and stands at no end of its at the point in a list,
    /// with its nearer side. That the point keeps the fixed sides of the current node is trusted to the caller.
    pub fn advise(&self, list: &[i32]) -> Result<Option<Advice>, Fault>
        ensures { (t : Tally) → Shows self.now.inner t → result ≡ advice (F.Family.meaning self.now.family) t.pending list.now }
    {
        let (n, m) = self.family.size();
        let point = Point::read(n, list)?;
        let sides = self.current()?;
        Ok((0..m).find_map(|row| {
            let side = self.advised_at(sides, &point, row)?;
            Some(Advice { row: row + 1, side })
        }))
    }
}
