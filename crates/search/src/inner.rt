// The plain state of a search: what no family is needed for.
use crate::frontier::Frontier;
use crate::held::Held;

mod holding;
mod reporting;

/// The held point, and the open nodes with their path.
#[derive(Clone, Copy)]
pub(crate) struct Inner {
    pub(crate) held: Option<Held>,
    pub(crate) frontier: Frontier,
}
