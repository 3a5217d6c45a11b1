// Writing a draft: its header, then its rows.
ghost use Rattle.std.specs.Prelude.{◌≡◌, ℕ, true, is_err};
ghost use Rattle.problem.specs.Drafts.{Grown};
ghost use Rattle.problem.specs.Calls.{data_of, fresh_draft, header_answer, with_header, row_answer, with_listed_row};

use crate::cost::Cost;
use crate::draft::Draft;
use crate::header::Header;
use crate::new_row::NewRow;
use crate::rates::Rates;
use crate::table::Problem;
use family::fault::{Fault, StateFault};
use family::gap::Gap;

impl<C: Cost> Draft<C> {
    /// A draft of one quantity, with the gap and the rates 0 and no rows.
    pub fn new(cost: C) -> Draft<C>
        ensures { data_of result ≡ fresh_draft cost }
    {
        Draft {
            cost,
            gap: Gap::zero(),
            rates: Rates::default(),
            problem: Problem::fresh(),
        }
    }

    /// Sets the number of quantities, the gap and all rates from a list of ten numbers.
    pub fn header(&mut self, list: &[i32]) -> Result<(), Fault>
        ensures answer { result ≡ header_answer (C.Cost.rated self.old.cost) (data_of self.old) list.now }
        ensures after { Grown result (data_of self.old) (data_of self.new) (with_header (data_of self.old) list.now) }
        ensures denied { is_err result ≡ true → self.new ≡ self.old }
    {
        // What a denial leaves is said of this function's own state; no type holds it.
        let header = Header::read(self.cost.rated(), list)?;
        if self.problem.row_count() > 0 {
            return Err(StateFault::HasRows.into());
        }
        self.gap = header.gap;
        self.rates = header.rates;
        self.problem.set_quantities(header.n);
        Ok(())
    }

    /// Fills the next free row from a list of eleven numbers and leaves every other.
    pub fn add_row(&mut self, list: &[i32]) -> Result<(), Fault>
        ensures answer { result ≡ row_answer (data_of self.old) list.now }
        ensures after { Grown result (data_of self.old) (data_of self.new) (with_listed_row (data_of self.old) list.now) }
        ensures denied { is_err result ≡ true → self.new ≡ self.old }
    {
        // What a denial leaves is said of this function's own state; no type holds it.
        let new = NewRow::read(self.problem.quantities(), list)?;
        self.problem.push(new)?;
        Ok(())
    }
}

impl<C: Cost + Drop> Draft<C> {
    /// Uses up the draft and gives its problem, its rates and its gap, as they stand.
    pub fn into_parts(self) -> (Problem, Rates, Gap)
        ensures problem { result.0 ≡ self.problem }
        ensures rates { result.1 ≡ self.rates }
        ensures gap { result.2 ≡ self.gap }
    {
        let Draft {
            cost: _,
            gap,
            rates,
            problem,
        } = self;
        (problem, rates, gap)
    }
}
