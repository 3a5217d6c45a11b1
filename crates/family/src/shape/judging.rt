// Judging a list: the first faulty number from the left decides.
ghost use Rattle.std.specs.Prelude.{◌≡◌, ℕ, ◌≤◌, pos, ◌≤ℤ◌};
ghost use Rattle.family.specs.Lists.{length_of, limits_at, around, in_use, within, number_fault, length_fault, numbers_fault, list_fault};

use crate::fault::ListFault;
use crate::shape::{Limits, Shape};
use crate::sizes::{HEADER_NUMBERS, POINT_NUMBERS, PROOF_NUMBERS, ROW_NUMBERS};

impl Limits {
    // From -bound to bound.
    fn around(bound: i32) -> Limits
        requires { pos 0 ≤ℤ bound }
        ensures { result ≡ around bound }
    {
        Limits {
            low: -bound,
            high: bound,
        }
    }

    // Whether a number lies within.
    fn hold(self, number: i32) -> bool
        ensures { result ≡ within self number }
    {
        (self.low..=self.high).contains(&number)
    }
}

// The fault of one number: a limit that it passes, or a filler that is not 0.
fn judge_number(limits: Option<Limits>, number: i32, place: usize) -> Result<(), ListFault>
    ensures { result ≡ number_fault limits number place }
{
    match limits {
        Some(limits) if limits.hold(number) => Ok(()),
        Some(_) => Err(ListFault::Limit { place }),
        None if number == 0 => Ok(()),
        None => Err(ListFault::Filler { place }),
    }
}

// Limits for `count` places from `first` on, and fillers after those.
fn in_use(first: usize, count: usize, index: usize, bound: i32) -> Option<Limits>
    requires after { first ≤ index }
    requires bound { pos 0 ≤ℤ bound }
    ensures { result ≡ in_use first count index bound }
{
    (index - first < count).then(|| Limits::around(bound))
}

impl Shape {
    // How many numbers the list has.
    fn length(self) -> usize
        ensures { result ≡ length_of self }
    {
        match self {
            Shape::Point { .. } => POINT_NUMBERS,
            Shape::Proof { .. } => PROOF_NUMBERS,
            Shape::Header { .. } => HEADER_NUMBERS,
            Shape::Row { .. } => ROW_NUMBERS,
        }
    }

    // What may stand at an index; None for a filler.
    fn limits(self, index: usize) -> Option<Limits>
        ensures { result ≡ limits_at self index }
    {
        // The limits are written out: the table is read beside its definition, and names for its numbers would hide them.
        match (self, index) {
            (Shape::Point { .. } | Shape::Proof { .. }, 0) => Some(Limits {
                low: 1,
                high: 1_000,
            }),
            (Shape::Point { quantities }, _) => in_use(1, quantities, index, 1_000_000),
            (Shape::Proof { rows }, _) => in_use(1, rows, index, 1_000),
            (Shape::Header { .. }, 0) => Some(Limits { low: 1, high: 8 }),
            (Shape::Header { .. }, 1) => Some(Limits {
                low: 0,
                high: 1_000_000,
            }),
            (Shape::Header { rates }, _) => in_use(2, rates, index, 50),
            (Shape::Row { .. }, 0) => Some(Limits { low: 1, high: 2 }),
            (Shape::Row { .. }, 1 | 2) => Some(Limits::around(10_000)),
            (Shape::Row { quantities }, _) => in_use(3, quantities, index, 50),
        }
    }

    /// The fault of a list of the wrong length.
    pub fn judge_length(self, list: &[i32]) -> Result<(), ListFault>
        ensures { result ≡ length_fault self list.now }
    {
        if list.len() == self.length() {
            Ok(())
        } else {
            Err(ListFault::Length)
        }
    }

    /// The fault of the first faulty number from the left.
    pub fn judge_numbers(self, list: &[i32]) -> Result<(), ListFault>
        ensures { result ≡ numbers_fault self 0 list.now }
    {
        for (index, number) in list.iter().enumerate() {
            judge_number(self.limits(index), *number, index + 1)?;
        }
        Ok(())
    }

    /// The fault of a list: its length, then its numbers.
    pub fn judge(self, list: &[i32]) -> Result<(), ListFault>
        ensures { result ≡ list_fault self list.now }
    {
        self.judge_length(list)?;
        self.judge_numbers(list)
    }
}
