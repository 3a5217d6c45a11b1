// A search over a family.
use crate::inner::Inner;
use family::Family;
use family::gap::Gap;

mod advising;
mod calling;
mod judging;
mod offering;

/// A search over the family and with the gap that it was opened with. It is used up by `stop`.
#[derive(Drop)]
pub struct Search<F: Family> {
    pub(crate) family: F,
    pub(crate) gap: Gap,
    pub(crate) inner: Inner,
}
