// What a search reports of its state.
ghost use Rattle.std.specs.Prelude.{◌≡◌};
ghost use Rattle.search.specs.Shows.{held_of, report_in, numbers_in};
ghost use Rattle.search.specs.Tally.{verdict_of, cost_of};
ghost use Rattle.search.specs.View.{nodes_of};

use crate::inner::Inner;
use crate::report::{Report, Verdict};
use family::sizes::POINT_NUMBERS;

impl Inner {
    // Stopped if a node is open, else best if a point is held, else none.
    fn verdict(&self) -> Verdict
        ensures { result ≡ verdict_of (nodes_of self.now.frontier) (held_of self.now.held) }
    {
        if self.frontier.open() > 0 {
            Verdict::Stopped
        } else if self.held.is_some() {
            Verdict::Best
        } else {
            Verdict::Nothing
        }
    }

    // The cost of the held point.
    fn cost(&self) -> Option<(i64, i64)>
        ensures { result ≡ cost_of (held_of self.now.held) }
    {
        self.held.map(|held| held.cost.pair())
    }

    // The verdict, the cost and the counts.
    pub(crate) fn report(&self) -> Report
        ensures { result ≡ report_in self.now }
    {
        Report {
            verdict: self.verdict(),
            cost: self.cost(),
            open: self.frontier.open(),
            splits: self.frontier.splits(),
            closed: self.frontier.closed(),
        }
    }

    // The nine numbers of the held point, all 0 if there is none.
    pub(crate) fn numbers(&self) -> [i32; POINT_NUMBERS]
        ensures { result ≡ numbers_in self.now }
    {
        // No `map_or`: the proof did not close over a closure that gives an array.
        match self.held {
            Some(held) => held.point,
            None => [0; POINT_NUMBERS],
        }
    }
}
