// The interface of the family.
ghost use Rattle.std.specs.Prelude.{◌≡◌};
ghost use Rattle.family.specs.Numbers.{at};
ghost use Rattle.family.specs.Points.{denominator_of};
ghost use Rattle.problem.specs.Programs.{program};
ghost use Rattle.squares.specs.Bounds.{bound_of, meaning_of};
ghost use Rattle.squares.specs.Laws.{laws};

use crate::least_squares::LeastSquares;
use family::Family;
use family::fault::{PointFault, ProofFault};
use family::judgement::Judgement;
use family::point::Point;
use family::position::Position;
use family::proof::Proof;
use family::sides::Sides;
use rows::duals::Duals;
use rows::restriction::Restriction;

// The bound that a proof's dual quantities give at its scale.
fn bound(proof: &Proof, duals: &Duals) -> (i64, i64)
    ensures { result ≡ bound_of (denominator_of proof.now) (at duals.now.columns.sums) duals.now.level }
{
    let scale = proof.denominator();
    (
        -(duals.columns.square_sum() + 2 * scale * duals.level),
        scale * scale,
    )
}

// Each family implements the interface itself, by a rule of the project; the four calls into `rows` are alike in both.
impl Family for LeastSquares {
    ghost meaning = { λ f. meaning_of (program f.problem) };

    ghost kept = { λ f. laws f.problem };

    fn size(&self) -> (usize, usize) {
        rows::size(&self.problem)
    }

    fn is_switch(&self, row: usize) -> bool {
        rows::is_switch(&self.problem, row)
    }

    fn judge_point(&self, sides: Sides, point: &Point) -> Result<(i64, i64), PointFault> {
        // A plain struct of two public fields, made by their names: a function that makes it would be no plainer.
        let restriction = Restriction {
            problem: &self.problem,
            sides,
        };
        restriction.admit(point)?;
        Ok(self.cost(point))
    }

    fn judge_proof(&self, sides: Sides, proof: &Proof) -> Result<Judgement, ProofFault> {
        let restriction = Restriction {
            problem: &self.problem,
            sides,
        };
        let judgement = restriction.duals(proof).map_or(
            Judgement::Void,
            |duals| Judgement::Bound(bound(proof, &duals)),
        );
        Ok(judgement)
    }

    fn position(&self, row: usize, point: &Point) -> Position {
        rows::position(&self.problem, row, point)
    }
}
