// The vocabulary that a family of problems and a search share, and the interface between them.
#![tactic(auto)]

ghost use Rattle.std.specs.Prelude.{◌≡◌};
ghost use Rattle.family.specs.Meaning.{Meaning, Laws};
ghost use Rattle.family.specs.Points.{any_point, any_proof};
ghost use Rattle.family.specs.Reading.{side_of};

pub mod fault;
pub mod fraction;
pub mod gap;
pub mod judgement;
pub mod offered;
pub mod point;
pub mod position;
pub mod proof;
pub mod shape;
pub mod side;
pub mod sides;
pub mod sizes;
pub mod unknown;

use fault::{PointFault, ProofFault};
use judgement::Judgement;
use point::Point;
use position::Position;
use proof::Proof;
use sides::Sides;

/// A family of problems: any implementation of these five functions that keeps the laws. The functions change
/// nothing and always answer alike.
pub trait Family {
    /// What the family means: its size, its switches, its admitted points with their costs, and its answers.
    ghost meaning: { Self → Meaning };

    /// The numbers of quantities and of rows.
    fn size(&self) -> (usize, usize)
        ensures quantities { result.0 ≡ (meaning self.now).n }
        ensures rows { result.1 ≡ (meaning self.now).m };

    /// Whether the row with this index is a switch.
    fn is_switch(&self, row: usize) -> bool
        ensures { result ≡ (meaning self.now).switch row };

    /// The cost of a point that is admitted under sides, or why it is not.
    // A pair, as every cost and bound is, by a rule of the project.
    fn judge_point(&self, sides: Sides, point: &Point) -> Result<(i64, i64), PointFault>
        ensures { result ≡ (meaning self.now).judge_point (side_of sides) (any_point point.now) };

    /// What a proof shows under sides, or why it is not taken.
    fn judge_proof(&self, sides: Sides, proof: &Proof) -> Result<Judgement, ProofFault>
        ensures { result ≡ (meaning self.now).judge_proof (side_of sides) (any_proof proof.now) };

    /// Where the switch row with this index stands at a point.
    fn position(&self, row: usize, point: &Point) -> Position
        ensures { result ≡ (meaning self.now).position row (any_point point.now) };

    ghost kept: { (f : Self) → Laws (meaning f) };
}
