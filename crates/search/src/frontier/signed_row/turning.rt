// Making a signed row, and what it fixes.
ghost use Rattle.std.specs.Prelude.{◌≡◌, ℕ, ◌<◌, neg_ℤ};
ghost use Rattle.family.specs.Reading.{side_of};
ghost use Rattle.search.specs.Nodes.{signed_row, turned};

use crate::frontier::signed_row::SignedRow;
use family::side::Side;
use family::sides::Sides;

impl SignedRow {
    /// Fixes nothing.
    pub(crate) const NOWHERE: SignedRow = SignedRow { number: 0 };

    // Fixes the row with this index at a side.
    pub(crate) fn of(row: usize, side: Side) -> SignedRow
        requires { row < 16 }
        ensures { result.number ≡ signed_row row side }
    {
        // An index with its limit and no type of its own: it would be made by the one caller and taken apart here.
        let number = row as i8 + 1;
        match side {
            Side::Lower => SignedRow { number: -number },
            Side::Upper => SignedRow { number },
        }
    }

    // The same row at the other side.
    pub(crate) fn across(self) -> SignedRow
        ensures { result.number ≡ neg_ℤ self.number }
    {
        SignedRow {
            number: -self.number,
        }
    }

    // The sides with what this fixes.
    pub(crate) fn turn(self, sides: Sides) -> Sides
        ensures { (k : ℕ) → side_of result k ≡ turned (side_of sides) self.number k }
    {
        let row = usize::from(self.number.unsigned_abs());
        match self.number {
            0 => sides,
            1.. => sides.fix(row - 1, Side::Upper),
            ..0 => sides.fix(row - 1, Side::Lower),
        }
    }
}
