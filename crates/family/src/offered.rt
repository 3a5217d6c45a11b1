// What a solver offers: whole numbers over one denominator.
ghost use Rattle.std.specs.Prelude.{ℕ, ◌<◌, ◌≤◌};
ghost use Rattle.family.specs.Numbers.{Small};

mod reading;

/// COUNT numerators, each from -BOUND to BOUND, over a denominator from 1 to 1,000. Numerators that the problem has
/// no use for are fillers: they are 0 in what was read, and no rule looks at them.
#[derive(Clone, Copy, Debug, PartialEq, Eq)]
pub struct Offered<const COUNT: usize, const BOUND: u32> {
    denominator: u32,
    numerators: [i32; COUNT],
    ghost positive: { 0 < denominator },
    ghost fine: { denominator ≤ 1000 },
    ghost near: { Small BOUND numerators },
}
