// Marking records as reached.
ghost use Rattle.std.specs.Prelude.{◌≡◌, ℕ, ◌+◌, ◌<◌, ◌≤◌, Bool, true, false, List, [], ◌∷◌, ◌++◌, length};
ghost use Rattle.file.specs.Chains.{has};
ghost use Rattle.file.specs.Walks.{reached_in};

use crate::call::LARGEST;
use crate::reached::Reached;
use arrayvec::ArrayVec;

impl Reached {
    // No record.
    pub(crate) fn none() -> Reached
        ensures { reached_in result ≡ [] }
    {
        Reached {
            order: ArrayVec::new(),
            seen: [false; LARGEST],
        }
    }

    // Whether a record was reached; if not, there is room for it.
    pub(crate) fn contains(&self, k: usize) -> bool
        requires { k < 819 }
        ensures value { result ≡ has (reached_in self.now) k }
        ensures room { result ≡ false → length (reached_in self.now) < 819 }
    {
        self.seen[k]
    }

    // One more record.
    pub(crate) fn push(&mut self, k: usize)
        requires below { k < 819 }
        requires fresh { has (reached_in self.old) k ≡ false }
        ensures { reached_in self.new ≡ reached_in self.old ++ (k ∷ []) }
    {
        self.order.push(k);
        self.seen[k] = true;
    }
}
