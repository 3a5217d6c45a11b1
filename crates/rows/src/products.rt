// Sums of products.
ghost use Rattle.std.specs.Prelude.{◌≡◌, ℕ, ◌*◌, ◌<◌, ◌≤◌, ℤ, unsigned_abs};
ghost use Rattle.sums.specs.Sums.{dot};

/// The sum of left times right over the indices below `count`. In absolute value no left number is larger than `LEFT`, and
/// no right one larger than `RIGHT`.
pub fn dot<const LEFT: u64, const RIGHT: u64, F: Fn(usize) -> i64, G: Fn(usize) -> i64>(
    count: usize,
    left: F,
    right: G,
) -> i64
    requires left_callable { F.IsAlwaysCallable left }
    requires right_callable { G.IsAlwaysCallable right }
    requires few { count ≤ 16 }
    requires left_small { LEFT ≤ 1000000 }
    requires right_small { RIGHT ≤ 1000000 }
    requires left_near { (k : ℕ) (x : ℤ) → k < count → F.post left k x → unsigned_abs x ≤ LEFT }
    requires right_near { (k : ℕ) (x : ℤ) → k < count → G.post right k x → unsigned_abs x ≤ RIGHT }
    ensures value { (f g : ℕ → ℤ) → ((k : ℕ) (x : ℤ) → k < count → F.post left k x → x ≡ f k) → ((k : ℕ) (x : ℤ) → k < count → G.post right k x → x ≡ g k) → result ≡ dot count f g }
    ensures near { unsigned_abs result ≤ LEFT * RIGHT * count }
{
    // A loop: that the sum of a chain fits is proved for numbers without a sign alone.
    let mut sum = 0;
    for index in 0..count {
        sum += left(index) * right(index);
    }
    sum
}
