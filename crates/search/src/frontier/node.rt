// One open node.
ghost use Rattle.std.specs.Prelude.{ℕ, ◌≤◌};

use crate::frontier::signed_row::SignedRow;

/// What the node fixes beyond the node above it, which is nothing at the root; and the depth.
#[derive(Clone, Copy)]
pub(crate) struct Node {
    pub(crate) row: SignedRow,
    pub(crate) depth: u8,
    ghost shallow: { depth ≤ 16 },
}

impl Node {
    /// The node that every other node stands below.
    pub(crate) const ROOT: Node = Node {
        row: SignedRow::NOWHERE,
        depth: 0,
    };
}
