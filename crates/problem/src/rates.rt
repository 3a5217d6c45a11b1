// The cost rates of a problem.
ghost use Rattle.std.specs.Prelude.{◌≡◌, ◌≤◌, unsigned_abs};
ghost use Rattle.family.specs.Numbers.{at};

use crate::coefficients::Coefficients;

/// Eight cost rates from -50 to 50.
pub type Rates = Coefficients;

impl Rates {
    /// The rate with this index, 0 beyond the eight.
    pub fn rate(&self, index: usize) -> i64
        ensures value { result ≡ at self.now.numbers index }
        ensures small { unsigned_abs result ≤ 50 }
    {
        self.numbers.get(index).copied().map_or(0, i64::from)
    }
}
