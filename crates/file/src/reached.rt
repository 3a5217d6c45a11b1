// The records that a file's chains have reached.
ghost use Rattle.std.specs.Prelude.{◌≡◌, ℕ, ◌+◌, ◌≤◌, Bool, true, false, length, slice_index_or};
ghost use Rattle.file.specs.Chains.{has, left};

use crate::call::LARGEST;
use arrayvec::ArrayVec;

mod marking;

/// Record numbers in the order in which they were reached, and a flag for each record of the largest file, by which one
/// is found without a search.
#[derive(Drop)]
pub(crate) struct Reached {
    // No code reads the order: a walk's contract speaks of the list of records that it reached, which this is.
    order: ArrayVec<usize, LARGEST>,
    seen: [bool; LARGEST],
    ghost marks: { (k : ℕ) → slice_index_or seen k false ≡ has order.items k },
    ghost room: { length order.items + left seen ≡ 819 },
}
