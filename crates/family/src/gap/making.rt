// Making and reading a gap.
ghost use Rattle.std.specs.Prelude.{◌≡◌, ℕ, ◌≤◌};
ghost use Rattle.std.specs.Option.{option_map};
ghost use Rattle.family.specs.Reading.{gap_value, gap_of};

use crate::gap::Gap;

const LARGEST: u32 = 1_000_000;

impl Gap {
    /// The gap of this size, or None outside 0 to 1,000,000.
    pub fn new(value: i32) -> Option<Gap>
        ensures { option_map gap_value result ≡ gap_of value }
    {
        let value = u32::try_from(value).ok()?;
        if value > LARGEST {
            return None;
        }
        Some(Gap { value })
    }

    /// No gap at all.
    pub fn zero() -> Gap
        ensures { gap_value result ≡ 0 }
    {
        Gap { value: 0 }
    }

    /// Its size.
    pub fn value(self) -> u32
        ensures { result ≡ gap_value self }
    {
        self.value
    }
}
