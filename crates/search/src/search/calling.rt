// The calls that change a search.
ghost use Rattle.std.specs.Prelude.{◌≡◌};
ghost use Rattle.search.specs.Calls.{Made};
ghost use Rattle.search.specs.Shows.{Shows};
ghost use Rattle.search.specs.Tally.{fresh, point as point_call, proof as proof_call, split as split_call};

use crate::inner::Inner;
use crate::outcome::Accepted;
use crate::search::Search;
use family::Family;
use family::fault::Fault;
use family::gap::Gap;

impl<F: Family> Search<F> {
    /// A search over this family with this gap: the root alone is open, and no point is held.
    pub fn open(family: F, gap: Gap) -> Search<F>
        ensures family { result.family ≡ family }
        ensures gap { result.gap ≡ gap }
        ensures shown { Shows result.inner fresh }
    {
        Search {
            family,
            gap,
            inner: Inner::fresh(),
        }
    }

    /// Offers the point in a list of nine numbers.
    pub fn point(&mut self, list: &[i32]) -> Result<Accepted, Fault>
        ensures { Made F.Family.meaning self.old (point_call list.now) self.new result }
    {
        let cost = self.point_cost(list)?;
        if !self.inner.is_beaten_by(cost) {
            return Ok(Accepted::Kept(cost.pair()));
        }
        self.inner.hold(list, cost);
        Ok(Accepted::Taken(cost.pair()))
    }

    /// Offers the proof in a list of seventeen numbers for the current node.
    pub fn proof(&mut self, list: &[i32]) -> Result<Accepted, Fault>
        ensures { Made F.Family.meaning self.old (proof_call list.now) self.new result }
    {
        let judgement = self.proof_shows(list)?;
        self.inner.frontier.close();
        Ok(Accepted::Closed(judgement))
    }

    /// Splits the current node at a row, counted from 1; the side, 0 lower and 1 upper, is current next.
    pub fn split(&mut self, row: i32, side: i32) -> Result<Accepted, Fault>
        ensures { Made F.Family.meaning self.old (split_call row side) self.new result }
    {
        let (row, side) = self.split_fixes(row, side)?;
        self.inner.frontier.split(row, side);
        Ok(Accepted::Split)
    }
}
