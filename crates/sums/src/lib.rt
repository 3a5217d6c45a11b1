// Theory alone: finite sums of whole numbers over any number of rows and columns.
#![tactic(auto)]

ghost use Rattle.std.specs.Prelude.{ℕ, ◌≡◌};
ghost use Rattle.sums.specs.Duality.{Exchange, WeakDuality};

/// States the two facts that every bound rests on: the exchange of the sums over rows and columns, and
/// that S times p is at most q times L for every point between the ends. It answers 0.
pub fn duality_holds() -> u8
    ensures exchange { Exchange }
    ensures weak { WeakDuality }
    ensures answer { result ≡ 0 }
{
    0
}
