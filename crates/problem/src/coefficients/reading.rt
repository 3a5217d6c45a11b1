// Making and reading coefficients.
ghost use Rattle.std.specs.Prelude.{◌≡◌, ℕ, ◌≤◌, length, replicate, ℤ, pos, unsigned_abs};
ghost use Rattle.family.specs.Numbers.{at, Small};

use crate::coefficients::Coefficients;
use family::sizes::QUANTITIES;

impl Default for Coefficients {
    ghost is_default = { λ c. c.numbers ≡ replicate 8 (pos 0) };

    fn default() -> Coefficients {
        Coefficients {
            numbers: [0; QUANTITIES],
        }
    }
}

impl Coefficients {
    // The coefficients that eight judged numbers give.
    pub(crate) fn of(judged: &[i32]) -> Coefficients
        requires eight { length judged.now ≡ 8 }
        requires small { Small 50 judged.now }
        ensures { result.numbers ≡ judged.now }
    {
        // Copied, and not by `try_from`, which would answer a Result that cannot fail here.
        let mut numbers = [0; QUANTITIES];
        numbers.copy_from_slice(judged);
        Coefficients { numbers }
    }
}
