// Which cost a draft is for.
ghost use Rattle.std.specs.Prelude.{◌≡◌, Bool, true, false};

/// A cost family as its drafts know it.
pub trait Cost {
    /// Whether the cost rates count.
    ghost rated: { Self → Bool };

    fn rated(&self) -> bool
        ensures { result ≡ rated self.now };
}

/// The sum of squares, which has no rates.
#[derive(Clone, Copy)]
pub struct Squares;

/// The sum of rate times quantity.
#[derive(Clone, Copy)]
pub struct Linear;

impl Cost for Squares {
    ghost rated = { λ _. false };

    fn rated(&self) -> bool {
        false
    }
}

impl Cost for Linear {
    ghost rated = { λ _. true };

    fn rated(&self) -> bool {
        true
    }
}
