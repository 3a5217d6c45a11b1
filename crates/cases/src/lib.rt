// Examples of the rules, as one listing with one proof over it.
#![tactic(auto)]

ghost use Rattle.std.specs.Prelude.{◌≡◌, ℕ};
ghost use Rattle.cases.specs.Listing.{ExamplesHold};

/// States that every example of the listing holds of the definitions. It answers how many there are.
pub fn examples_hold() -> u8
    ensures hold { ExamplesHold }
    ensures count { result ≡ 25 }
{
    25
}
