// The gap by which a verdict may fall short.
ghost use Rattle.std.specs.Prelude.{ℕ, ◌≤◌};

mod making;

/// A whole number from 0 to 1,000,000; no other gap can exist.
#[derive(Clone, Copy, Debug, PartialEq, Eq)]
pub struct Gap {
    value: u32,
    ghost small: { value ≤ 1000000 },
}
