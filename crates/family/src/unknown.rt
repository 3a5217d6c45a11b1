// Numbers that stand for nothing.

/// A number that stands for nothing where it was read.
#[derive(Clone, Copy, Debug, PartialEq, Eq)]
pub struct Unknown;
