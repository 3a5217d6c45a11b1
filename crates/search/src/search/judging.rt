// What the offers to a search are judged to be, in the order of the denials. Nothing is changed here.
ghost use Rattle.std.specs.Prelude.{◌≡◌};
ghost use Rattle.std.specs.Result.{result_map_both};
ghost use Rattle.family.specs.Reading.{gap_value, side_of};
ghost use Rattle.search.specs.Ratios.{pair_of};
ghost use Rattle.search.specs.Shows.{held_of};
ghost use Rattle.search.specs.Tally.{point_cost, proof_shows, row_named, side_named, split_fixes};
ghost use Rattle.search.specs.View.{nodes_of, Current};

use crate::ratio::Ratio;
use crate::search::Search;
use family::Family;
use family::fault::{Fault, ListFault, StateFault};
use family::judgement::Judgement;
use family::point::Point;
use family::proof::Proof;
use family::side::Side;
use family::sides::Sides;

// The index of the row that a number from 1 to m names.
fn row_named(m: usize, row: i32) -> Result<usize, Fault>
    ensures { result ≡ row_named m row }
{
    match usize::try_from(row) {
        Ok(number) if (1..=m).contains(&number) => Ok(number - 1),
        _ => Err(ListFault::Limit { place: 1 }.into()),
    }
}

// The side that a number names.
fn side_named(side: i32) -> Result<Side, Fault>
    ensures { result ≡ side_named side }
{
    Side::try_from(side).map_err(|_| ListFault::Limit { place: 2 }.into())
}

impl<F: Family> Search<F> {
    // The cost of the point in a list, with every switch free.
    pub(crate) fn point_cost(&self, list: &[i32]) -> Result<Ratio, Fault>
        ensures { result_map_both pair_of (λ fault. fault) result ≡ point_cost (F.Family.meaning self.now.family) list.now }
    {
        let (n, _) = self.family.size();
        let point = Point::read(n, list)?;
        let cost = self.family.judge_point(Sides::all_free(), &point)?;
        Ok(Ratio::of(cost))
    }

    // The full sides of the current node, if one is open.
    pub(crate) fn current(&self) -> Result<Sides, StateFault>
        ensures { Current (nodes_of self.now.inner.frontier) result }
    {
        self.inner.frontier.current().ok_or(StateFault::NoNode)
    }

    // What the proof in a list shows of the current node, if that closes it.
    pub(crate) fn proof_shows(&self, list: &[i32]) -> Result<Judgement, Fault>
        ensures { result ≡ proof_shows (F.Family.meaning self.now.family) (gap_value self.now.gap) (nodes_of self.now.inner.frontier) (held_of self.now.inner.held) list.now }
    {
        let (_, m) = self.family.size();
        let proof = Proof::read(m, list)?;
        let sides = self.current()?;
        let judgement = self.family.judge_proof(sides, &proof)?;
        if self.inner.is_shut_by(self.gap, judgement) {
            Ok(judgement)
        } else {
            Err(StateFault::Weak.into())
        }
    }

    // The row and the side that a split fixes at the current node.
    pub(crate) fn split_fixes(&self, row: i32, side: i32) -> Result<(usize, Side), Fault>
        ensures { result ≡ split_fixes (F.Family.meaning self.now.family) (nodes_of self.now.inner.frontier) row side }
    {
        let (_, m) = self.family.size();
        let row = row_named(m, row)?;
        let side = side_named(side)?;
        if !self.family.is_switch(row) {
            return Err(StateFault::NotSwitch.into());
        }
        let sides = self.current()?;
        if sides.side(row).is_some() {
            return Err(StateFault::AlreadyFixed.into());
        }
        Ok((row, side))
    }
}
