// Costs and bounds as they are printed.
mod telling;

/// A cost or a bound: a numerator over a denominator, not reduced.
#[derive(Clone, Copy, Debug, PartialEq, Eq)]
pub struct Fraction(pub (i64, i64));
