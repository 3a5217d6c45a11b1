// Eight coefficients.
ghost use Rattle.family.specs.Numbers.{Small};

use family::sizes::QUANTITIES;

mod reading;

/// Eight numbers from -50 to 50: the coefficients of a row, or those of a cost, which are its rates.
#[derive(Clone, Copy)]
pub struct Coefficients {
    pub(crate) numbers: [i32; QUANTITIES],
    ghost small: { Small 50 numbers },
}
