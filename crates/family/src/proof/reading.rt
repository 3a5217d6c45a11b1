// Reading a proof from a list.
ghost use Rattle.std.specs.Prelude.{◌≡◌, ℕ};
ghost use Rattle.family.specs.Lists.{list_fault, Read};
ghost use Rattle.family.specs.Points.{Holds};
ghost use Rattle.family.specs.declared.shape.Shape.TheVariants.{Proof as ProofShape};

use crate::fault::ListFault;
use crate::proof::Proof;
use crate::shape::Shape;

impl Proof {
    /// The proof that a list of seventeen numbers holds for a problem of m rows, or the list's fault.
    pub fn read(m: usize, list: &[i32]) -> Result<Proof, ListFault>
        ensures { Read (list_fault (ProofShape m) list.now) (Holds list.now) result }
    {
        Shape::Proof { rows: m }.judge(list)?;
        Ok(Proof::of(list))
    }
}
