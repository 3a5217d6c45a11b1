// From a proof to its dual quantities.
ghost use Rattle.std.specs.Prelude.{◌≡◌, ◌≤◌, true, MatchOption, unsigned_abs};
ghost use Rattle.family.specs.Points.{numerator_of};
ghost use Rattle.family.specs.Reading.{side_of};
ghost use Rattle.problem.specs.Programs.{program};
ghost use Rattle.rows.specs.Duals.{met_end, level_of, is_void};
ghost use Rattle.rows.specs.Readings.{HasDuals};

use crate::column_sums::ColumnSums;
use crate::duals::{Duals, is_void};
use crate::products::dot;
use crate::restriction::Restriction;
use family::proof::Proof;

impl Restriction<'_> {
    // The end of a row that its multiplier meets: the upper one where the multiplier is positive.
    fn meet(&self, proof: &Proof, row: usize) -> i64
        ensures value { result ≡ met_end (program self.now.problem.now) (side_of self.now.sides) (numerator_of proof.now) row }
        ensures near { unsigned_abs result ≤ 10000 }
    {
        let (lo, hi) = self.ends(row);
        if proof.numerator(row) > 0 { hi } else { lo }
    }

    /// The level: the sum over the rows of multiplier times the end that it meets.
    pub fn level(&self, proof: &Proof) -> i64
        ensures value { result ≡ level_of (program self.now.problem.now) (side_of self.now.sides) (numerator_of proof.now) }
        ensures near { unsigned_abs result ≤ 160000000 }
    {
        dot::<1_000, 10_000, _, _>(
            self.problem.row_count(),
            |row| proof.numerator(row),
            |row| self.meet(proof, row),
        )
    }

    /// The dual quantities of a proof; None where they show it void, and so that no point is admitted.
    pub fn duals(&self, proof: &Proof) -> Option<Duals>
        ensures { MatchOption result (is_void (program self.now.problem.now) (side_of self.now.sides) (numerator_of proof.now) ≡ true) (HasDuals (program self.now.problem.now) (side_of self.now.sides) (numerator_of proof.now)) }
    {
        let columns = ColumnSums::of(self.problem, proof);
        let level = self.level(proof);
        (!is_void(&columns, level)).then_some(Duals { columns, level })
    }
}
