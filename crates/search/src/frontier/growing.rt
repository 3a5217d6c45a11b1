// What becomes of the open nodes: the current one is closed or split.
ghost use Rattle.std.specs.Prelude.{◌≡◌, ℕ, ◌+◌, ◌-◌, ◌<◌, ◌≤◌, [], ◌∷◌, length, None, MatchOption, slice_index_or};
ghost use Rattle.family.specs.Reading.{side_of};
ghost use Rattle.search.specs.Nodes.{root};
ghost use Rattle.search.specs.Tally.{OnTop, rest};
ghost use Rattle.search.specs.View.{nodes_of, closed_of, splits_of, Rooted, Closed, Forked};

use crate::frontier::Frontier;
use crate::frontier::node::Node;
use crate::frontier::signed_row::SignedRow;
use family::side::Side;
use family::sides::Sides;
use family::sizes::ROWS;

impl Frontier {
    // The root alone is open.
    pub(crate) fn root() -> Frontier
        ensures { Rooted result }
    {
        Frontier {
            stack: [Node::ROOT; ROWS + 1],
            height: 1,
            path: [SignedRow::NOWHERE; ROWS],
            closed: 0,
            splits: 0,
        }
    }

    // How many nodes are open.
    pub(crate) fn open(&self) -> usize
        ensures { result ≡ length (nodes_of self.now) }
    {
        self.height
    }

    // How many nodes were closed.
    pub(crate) fn closed(&self) -> u32
        ensures { result ≡ closed_of self.now }
    {
        self.closed
    }

    // How many nodes were split.
    pub(crate) fn splits(&self) -> u32
        ensures { result ≡ splits_of self.now }
    {
        self.splits
    }

    // The current node.
    fn top(&self) -> Node
        requires { 0 < self.now.height }
        ensures { result ≡ slice_index_or self.now.stack (self.now.height - 1) root }
    {
        self.stack[self.height - 1]
    }

    // The full sides of the current node, if there is one.
    pub(crate) fn current(&self) -> Option<Sides>
        ensures { MatchOption result (nodes_of self.now ≡ []) (λ s. nodes_of self.now ≡ side_of s ∷ rest (nodes_of self.now)) }
    {
        if self.height == 0 {
            return None;
        }
        let top = self.top();
        let mut sides = Sides::all_free();
        for row in &self.path[..usize::from(top.depth)] {
            sides = row.turn(sides);
        }
        Some(top.row.turn(sides))
    }

    // The current node is closed.
    pub(crate) fn close(&mut self)
        requires { 0 < length (nodes_of self.old) }
        ensures { Closed self.old self.new }
    {
        self.height -= 1;
        self.closed += 1;
    }

    // The current node gives way to one child for each side of a row; the named side is current next.
    pub(crate) fn split(&mut self, row: usize, side: Side)
        requires within { row < 16 }
        requires loose { OnTop (λ s. s row ≡ None) (nodes_of self.old) }
        ensures { Forked row side self.old self.new }
    {
        // An index with its limit and no type of its own: it would be made by the one caller and only handed on to `SignedRow::of`.
        let top = self.top();
        let depth = top.depth + 1;
        let named = SignedRow::of(row, side);
        let other = named.across();
        self.path[usize::from(top.depth)] = top.row;
        self.stack[self.height - 1] = Node { row: other, depth };
        self.stack[self.height] = Node { row: named, depth };
        self.height += 1;
        self.splits += 1;
    }
}
