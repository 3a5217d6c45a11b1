// The open nodes of a search, and the path that they share.
ghost use Rattle.std.specs.Prelude.{◌≡◌, ℕ, ◌+◌, ◌≤◌, true};
ghost use Rattle.search.specs.Nodes.{sane, weight};

mod growing;
mod node;
mod signed_row;

use family::sizes::ROWS;
use node::Node;
use signed_row::SignedRow;

/// The open nodes, the current one on top, with the counts of closed nodes and of splits. The path has the
/// signed rows of the nodes that were split on the way to the current one: the sides of a node are its own and
/// those of the path down to its depth.
#[derive(Clone, Copy)]
pub(crate) struct Frontier {
    // Tables with a height: a rule of the project, as a search has fixed memory and stands on `family` alone.
    stack: [Node; ROWS + 1],
    height: usize,
    path: [SignedRow; ROWS],
    closed: u32,
    splits: u32,
    ghost low: { height ≤ 17 },
    ghost sound: { sane path stack 16 height ≡ true },
    ghost weighed: { closed + weight stack height ≤ 65536 },
    ghost counted: { closed + height ≡ splits + 1 },
}
