// Where a switch row stands at a point.

/// At both ends, at one of them, or between them and nearer to one.
#[derive(Clone, Copy, Debug, PartialEq, Eq)]
pub enum Position {
    AtBoth,
    AtLower,
    AtUpper,
    NearLower,
    NearUpper,
}
