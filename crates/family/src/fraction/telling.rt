// The text of a cost or a bound.
ghost use Rattle.std.specs.Prelude.{Some};
ghost use Rattle.family.specs.Fractions.{fraction_text};

use crate::fraction::Fraction;
use std::fmt;

impl fmt::Display for Fraction {
    ghost output = { λ x. Some (fraction_text x.0) };

    fn fmt<W: fmt::Write>(&self, f: &mut fmt::Formatter<W>) -> fmt::Result {
        let (numerator, denominator) = self.0;
        write!(f, "{numerator}/{denominator}")
    }
}
