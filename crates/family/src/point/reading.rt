// Reading a point from a list.
ghost use Rattle.std.specs.Prelude.{◌≡◌, ℕ};
ghost use Rattle.family.specs.Lists.{list_fault, Read};
ghost use Rattle.family.specs.Points.{Holds};
ghost use Rattle.family.specs.declared.shape.Shape.TheVariants.{Point as PointShape};

use crate::fault::ListFault;
use crate::point::Point;
use crate::shape::Shape;

impl Point {
    /// The point that a list of nine numbers holds for a problem of n quantities, or the list's fault.
    pub fn read(n: usize, list: &[i32]) -> Result<Point, ListFault>
        ensures { Read (list_fault (PointShape n) list.now) (Holds list.now) result }
    {
        Shape::Point { quantities: n }.judge(list)?;
        Ok(Point::of(list))
    }
}
