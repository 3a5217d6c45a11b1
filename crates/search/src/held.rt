// The point that a search holds.
use crate::ratio::Ratio;
use family::sizes::POINT_NUMBERS;

/// The nine numbers of an admitted point, and its cost.
#[derive(Clone, Copy)]
pub(crate) struct Held {
    pub(crate) point: [i32; POINT_NUMBERS],
    pub(crate) cost: Ratio,
}
