// What the held point decides.
ghost use Rattle.std.specs.Prelude.{◌≡◌, ℕ, length};
ghost use Rattle.family.specs.Reading.{gap_value};
ghost use Rattle.search.specs.Ratios.{pair_of};
ghost use Rattle.search.specs.Shows.{held_of, FairJudgement, Shows, Holding};
ghost use Rattle.search.specs.Tally.{beats, shuts, fresh};

use crate::frontier::Frontier;
use crate::held::Held;
use crate::inner::Inner;
use crate::ratio::Ratio;
use family::gap::Gap;
use family::judgement::Judgement;
use family::sizes::POINT_NUMBERS;

impl Inner {
    // The root is open, and no point is held.
    pub(crate) fn fresh() -> Inner
        ensures { Shows result fresh }
    {
        Inner {
            held: None,
            frontier: Frontier::root(),
        }
    }

    // Whether a point of this cost is the first or strictly cheaper than the held one.
    pub(crate) fn is_beaten_by(&self, cost: Ratio) -> bool
        ensures { result ≡ beats (pair_of cost) (held_of self.now.held) }
    {
        self.held.is_none_or(|held| cost.is_cheaper_than(held.cost))
    }

    // Whether a judgement closes the current node.
    pub(crate) fn is_shut_by(&self, gap: Gap, judgement: Judgement) -> bool
        requires { FairJudgement judgement }
        ensures { result ≡ shuts (gap_value gap) (held_of self.now.held) judgement }
    {
        match judgement {
            Judgement::Void => true,
            Judgement::Bound(bound) => {
                let bound = Ratio::of(bound);
                self.held.is_some_and(|held| bound.closes(gap, held.cost))
            }
        }
    }

    // Holds the point of nine numbers, in place of any other.
    pub(crate) fn hold(&mut self, list: &[i32], cost: Ratio)
        requires { length list.now ≡ 9 }
        ensures { Holding list.now (pair_of cost) self.old self.new }
    {
        // Copied, and not by `try_from`, which would answer a Result that cannot fail here.
        let mut point = [0; POINT_NUMBERS];
        point.copy_from_slice(list);
        self.held = Some(Held { point, cost });
    }
}
