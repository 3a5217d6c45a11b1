// A cost or a bound within the limits.
ghost use Rattle.family.specs.Fractions.{Fair};

mod comparing;

/// A numerator and a positive denominator, not reduced, within the limits of what a family answers.
#[derive(Clone, Copy)]
pub(crate) struct Ratio {
    numerator: i64,
    denominator: i64,
    ghost fair: { Fair (numerator, denominator) },
}
