// The numbers that stand for sides in an offer.
ghost use Rattle.family.specs.Sides.{side_number};
ghost use Rattle.family.specs.Numbers.{Numbered};

use crate::side::Side;
use crate::unknown::Unknown;

impl TryFrom<i32> for Side {
    type Error = Unknown;

    ghost try_from_gives = { Numbered side_number };

    /// The side that a number stands for.
    fn try_from(number: i32) -> Result<Side, Unknown> {
        match number {
            0 => Ok(Side::Lower),
            1 => Ok(Side::Upper),
            _ => Err(Unknown),
        }
    }
}
