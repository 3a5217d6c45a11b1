// The lists that a draft is written as.
ghost use Rattle.std.specs.Prelude.{◌≡◌, ◌≤◌};
ghost use Rattle.problem.specs.Calls.{data_of};
ghost use Rattle.problem.specs.Listings.{header_list, listed_row};

use crate::cost::Cost;
use crate::draft::Draft;
use family::sizes::{HEADER_NUMBERS, ROW_NUMBERS};

impl<C: Cost> Draft<C> {
    /// The number of rows, m.
    pub fn row_count(&self) -> usize
        ensures value { result ≡ (data_of self.now).problem.m }
        ensures few { result ≤ 16 }
    {
        self.problem.row_count()
    }

    /// The ten numbers that a header takes for this draft; rates are 0 where the cost has none.
    pub fn header_list(&self) -> [i32; HEADER_NUMBERS]
        ensures { result ≡ header_list (C.Cost.rated self.now.cost) (data_of self.now) }
    {
        let n = self.problem.quantities() as i32;
        let gap = self.gap.value() as i32;
        let mut list = [n, gap, 0, 0, 0, 0, 0, 0, 0, 0];
        if self.cost.rated() {
            list[2..].copy_from_slice(&self.rates.numbers);
        }
        list
    }

    /// The eleven numbers that an added row takes for the row with this index; a plain row of zeros beyond the
    /// table.
    pub fn row_list(&self, index: usize) -> [i32; ROW_NUMBERS]
        ensures { result ≡ listed_row (data_of self.now) index }
    {
        let row = self.problem.row(index);
        let kind = row.kind.into();
        let mut list = [kind, row.lo, row.hi, 0, 0, 0, 0, 0, 0, 0, 0];
        list[3..].copy_from_slice(&self.problem.coefficients(index));
        list
    }
}
