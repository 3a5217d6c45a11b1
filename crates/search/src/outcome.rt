// What becomes of an offer.
use family::judgement::Judgement;

/// What an accepted offer did. A cost and a judgement are those of the offer.
#[derive(Clone, Copy, Debug, PartialEq, Eq)]
pub enum Accepted {
    /// The point is held now: it is the first, or strictly cheaper than the one held before.
    // A pair, as every cost and bound is, by a rule of the project.
    Taken((i64, i64)),
    /// The point is admitted and no cheaper than the held one, which stays.
    Kept((i64, i64)),
    /// The proof closed the current node.
    Closed(Judgement),
    /// The current node gave way to its children.
    Split,
}
