// Ratios compared by cross products, within 64 bits.
ghost use Rattle.std.specs.Prelude.{◌≡◌, ℕ, ◌≤◌, ◌*ℤ◌, unsigned_abs};
ghost use Rattle.family.specs.Fractions.{Fair, cheaper, lessened, closes};
ghost use Rattle.family.specs.Reading.{gap_value};
ghost use Rattle.search.specs.Ratios.{pair_of};

use crate::ratio::Ratio;
use family::gap::Gap;

impl Ratio {
    // The ratio that a pair stands for.
    pub(crate) fn of(pair: (i64, i64)) -> Ratio
        requires { Fair pair }
        ensures { pair_of result ≡ pair }
    {
        Ratio {
            numerator: pair.0,
            denominator: pair.1,
        }
    }

    // The numerator and the denominator.
    pub(crate) fn pair(self) -> (i64, i64)
        ensures { result ≡ pair_of self }
    {
        (self.numerator, self.denominator)
    }

    // Whether this cost is strictly cheaper than another. Not as `PartialOrd`: pairs that stand for one cost may
    // differ, so that an order would need an equality of its own, and nothing asks for more than this.
    pub(crate) fn is_cheaper_than(self, other: Ratio) -> bool
        ensures { result ≡ cheaper (pair_of self) (pair_of other) }
    {
        other.scaled(self.numerator) < self.scaled(other.numerator)
    }

    // Whether this bound is at least a cost less the gap.
    pub(crate) fn closes(self, gap: Gap, cost: Ratio) -> bool
        ensures { result ≡ closes (gap_value gap) (pair_of self) (pair_of cost) }
    {
        self.scaled(cost.lessened(gap)) <= cost.scaled(self.numerator)
    }

    // The numerator of this cost less the gap.
    fn lessened(self, gap: Gap) -> i64
        ensures value { result ≡ (lessened (gap_value gap) (pair_of self)).0 }
        ensures near { unsigned_abs result ≤ 9000000000000 }
    {
        self.numerator - i64::from(gap.value()) * self.denominator
    }

    // A number times the denominator.
    fn scaled(self, number: i64) -> i64
        requires { unsigned_abs number ≤ 9000000000000 }
        ensures { result ≡ number *ℤ self.denominator }
    {
        number * self.denominator
    }
}
