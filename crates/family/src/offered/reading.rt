// The numbers of what is offered.
ghost use Rattle.std.specs.Prelude.{◌≡◌, ℕ, ◌<◌, ◌≤◌, ℤ, pos, ◌≤ℤ◌, length, drop, unsigned_abs};
ghost use Rattle.family.specs.Numbers.{at, Small};
ghost use Rattle.family.specs.Points.{denominator_of, numerator_of, Holds};

use crate::fault::ListFault;
use crate::offered::Offered;

impl<const COUNT: usize, const BOUND: u32> Offered<COUNT, BOUND> {
    /// The denominator.
    pub fn denominator(&self) -> i64
        ensures value { result ≡ pos (denominator_of self.now) }
        ensures small { unsigned_abs result ≤ 1000 }
    {
        i64::from(self.denominator)
    }

    /// The numerator with this index, 0 beyond the last.
    pub fn numerator(&self, index: usize) -> i64
        ensures value { result ≡ numerator_of self.now index }
        ensures small { unsigned_abs result ≤ BOUND }
    {
        self.numerators.get(index).copied().map_or(0, i64::from)
    }

    // What a list holds that is a denominator and then as many numerators, all within their limits.
    pub(crate) fn of(list: &[i32]) -> Self
        requires long { length (drop 1 list.now) ≡ COUNT }
        requires positive { pos 1 ≤ℤ at list.now 0 }
        requires fine { at list.now 0 ≤ℤ pos 1000 }
        requires near { Small BOUND (drop 1 list.now) }
        ensures { Holds list.now result }
    {
        let [denominator, rest @ ..] = list else {
            unreachable!()
        };
        // Copied, and not by `try_from`, which would answer a Result that cannot fail here.
        let mut numerators = [0; COUNT];
        numerators.copy_from_slice(rest);
        Offered {
            denominator: denominator.unsigned_abs(),
            numerators,
        }
    }
}
