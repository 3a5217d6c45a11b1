// What a search advises to split.
use family::side::Side;

/// A row, counted from 1, and the side to name.
#[derive(Clone, Copy, Debug, PartialEq, Eq)]
pub struct Advice {
    pub row: usize,
    pub side: Side,
}
