// What a family makes of a proof.

/// A proof shows that no point is admitted, or it bounds the cost of every admitted point from below.
#[derive(Clone, Copy, Debug, PartialEq, Eq)]
pub enum Judgement {
    // Not an Option of a bound: None would read as "no bound", where void is the strongest answer of all.
    Void,
    // A pair, as every cost and bound is, by a rule of the project.
    Bound((i64, i64)),
}
