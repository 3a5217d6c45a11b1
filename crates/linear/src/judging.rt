// The interface of the family.
ghost use Rattle.std.specs.Prelude.{◌≡◌, ℕ, ◌<◌, ◌≤◌, ℤ, IfSome, unsigned_abs};
ghost use Rattle.family.specs.Numbers.{at};
ghost use Rattle.family.specs.Points.{denominator_of};
ghost use Rattle.problem.specs.Programs.{program};
ghost use Rattle.linear.specs.Bounds.{first_difference, balancing, meaning_of};
ghost use Rattle.linear.specs.Laws.{laws};

use crate::linear_costs::LinearCosts;
use family::Family;
use family::fault::{PointFault, ProofFault};
use family::judgement::Judgement;
use family::point::Point;
use family::position::Position;
use family::proof::Proof;
use family::sides::Sides;
use rows::column_sums::ColumnSums;
use rows::restriction::Restriction;

impl LinearCosts {
    // The sum that balances the rate of a column.
    fn balancing(&self, proof: &Proof, column: usize) -> i64
        ensures value { result ≡ balancing (denominator_of proof.now) (at self.now.rates.numbers) column }
        ensures near { unsigned_abs result ≤ 50000 }
    {
        -(proof.denominator() * self.rates.rate(column))
    }

    // The index of the first column that does not balance; None where all do.
    fn off_balance(&self, proof: &Proof, columns: &ColumnSums) -> Option<usize>
        ensures least { result ≡ first_difference (at columns.now.sums) (balancing (denominator_of proof.now) (at self.now.rates.numbers)) 0 (program self.now.problem).n }
        ensures few { IfSome result (λ j. j < 8) }
    {
        (0..self.problem.quantities()).find(|&column| columns.sum(column)
            != self.balancing(proof, column))
    }
}

// Each family implements the interface itself, by a rule of the project; the four calls into `rows` are alike in both.
impl Family for LinearCosts {
    ghost meaning = { λ f. meaning_of (program f.problem) (at f.rates.numbers) };

    ghost kept = { λ f. laws f.problem f.rates.numbers f.rates.small };

    fn size(&self) -> (usize, usize) {
        rows::size(&self.problem)
    }

    fn is_switch(&self, row: usize) -> bool {
        rows::is_switch(&self.problem, row)
    }

    fn judge_point(&self, sides: Sides, point: &Point) -> Result<(i64, i64), PointFault> {
        // A plain struct of two public fields, made by their names: a function that makes it would be no plainer.
        let restriction = Restriction {
            problem: &self.problem,
            sides,
        };
        restriction.admit(point)?;
        Ok(self.cost(point))
    }

    fn judge_proof(&self, sides: Sides, proof: &Proof) -> Result<Judgement, ProofFault> {
        let restriction = Restriction {
            problem: &self.problem,
            sides,
        };
        let Some(duals) = restriction.duals(proof) else {
            return Ok(Judgement::Void);
        };
        // A match: None is the good case here, which `map_or` would hide.
        match self.off_balance(proof, &duals.columns) {
            None => Ok(Judgement::Bound((-duals.level, proof.denominator()))),
            Some(index) => Err(ProofFault::NotBalanced { column: index + 1 }),
        }
    }

    fn position(&self, row: usize, point: &Point) -> Position {
        rows::position(&self.problem, row, point)
    }
}
