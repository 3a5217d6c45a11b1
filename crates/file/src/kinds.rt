// The numbers that stand for families and for kinds of calls in a file.
mod numbering;

/// The family that a file is of.
#[derive(Clone, Copy, Debug, PartialEq, Eq)]
pub(crate) enum FamilyKind {
    Squares,
    Linear,
}

/// What a record in the chain of calls holds.
#[derive(Clone, Copy, Debug, PartialEq, Eq)]
pub(crate) enum CallKind {
    Point,
    Proof,
    Split,
}
