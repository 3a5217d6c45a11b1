// What stands in the lists that the calls take.
mod judging;

/// The least and the largest number that may stand at a place.
#[derive(Clone, Copy, Debug, PartialEq, Eq)]
pub struct Limits {
    pub low: i32,
    pub high: i32,
}

/// A list that a call takes, with how many of its numbers are in use; the numbers after those are fillers.
#[derive(Clone, Copy, Debug, PartialEq, Eq)]
pub enum Shape {
    /// A denominator and eight numerators.
    Point { quantities: usize },
    /// A scale and sixteen multipliers.
    Proof { rows: usize },
    /// The number of quantities, the gap and eight cost rates.
    Header { rates: usize },
    /// A kind, a lower end, an upper end and eight coefficients.
    Row { quantities: usize },
}
