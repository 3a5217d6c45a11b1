// Reading and fixing sides.
ghost use Rattle.std.specs.Prelude.{◌≡◌, ℕ, ◌<◌, ◌≤◌, None};
ghost use Rattle.family.specs.Sides.{fixed};
ghost use Rattle.family.specs.Reading.{side_of};

use crate::side::Side;
use crate::sides::Sides;
use crate::sizes::ROWS;

impl Sides {
    /// Every row free.
    pub fn all_free() -> Sides
        ensures { (k : ℕ) → side_of result k ≡ None }
    {
        Sides { lower: 0, upper: 0 }
    }

    /// The side of the row with this index, None where it is free. Rows beyond the sixteen are free.
    pub fn side(self, row: usize) -> Option<Side>
        ensures { result ≡ side_of self row }
    {
        if row >= ROWS {
            None
        } else if (self.lower >> row) & 1 == 1 {
            Some(Side::Lower)
        } else if (self.upper >> row) & 1 == 1 {
            Some(Side::Upper)
        } else {
            None
        }
    }

    /// The sides with one row fixed at a side, whatever it was before. A row beyond the sixteen changes nothing.
    pub fn fix(self, row: usize, side: Side) -> Sides
        ensures inside { row < 16 → (k : ℕ) → side_of result k ≡ fixed (side_of self) row side k }
        ensures outside { 16 ≤ row → result ≡ self }
    {
        if row >= ROWS {
            return self;
        }
        self.set(row, side)
    }

    // Moves the row's one bit into the side's mask.
    fn set(self, row: usize, side: Side) -> Sides
        requires { row < 16 }
        ensures { (k : ℕ) → side_of result k ≡ fixed (side_of self) row side k }
    {
        // An index with its limit and no type of its own: it would be made by the one caller and taken apart here.
        let bit = 1 << row;
        match side {
            Side::Lower => Sides {
                lower: self.lower | bit,
                upper: self.upper & !bit,
            },
            Side::Upper => Sides {
                lower: self.lower & !bit,
                upper: self.upper | bit,
            },
        }
    }
}
