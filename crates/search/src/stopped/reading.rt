// Stopping a search and reading how it ended.
ghost use Rattle.std.specs.Prelude.{◌≡◌, ℕ, length, IfOk, if◌then◌else◌, Ok, Err, nat_eq};
ghost use Rattle.family.specs.declared.fault.Fault.TheVariants.{List as in_list};
ghost use Rattle.family.specs.declared.fault.ListFault.TheVariants.{Length};
ghost use Rattle.family.specs.Reading.{gap_value};
ghost use Rattle.search.specs.Shows.{report_in, numbers_in, AfterAny};

use crate::report::Report;
use crate::search::Search;
use crate::stopped::Stopped;
use family::Family;
use family::fault::{Fault, ListFault};
use family::sizes::POINT_NUMBERS;

impl<F: Family> Search<F> {
    /// Ends the search, which is used up. It never refuses.
    pub fn stop(self) -> Stopped<F>
        ensures same { result.search ≡ self }
        ensures ends { AfterAny (F.Family.meaning self.family) (gap_value self.gap) self.inner (report_in result.search.inner) (numbers_in result.search.inner) }
    {
        Stopped { search: self }
    }
}

impl<F: Family> Stopped<F> {
    /// The verdict, the cost and the counts; the place, of exactly nine numbers, is filled with the held point, or
    /// with 0 if there is none. A place of another length is left as it was.
    pub fn read(&self, place: &mut [i32]) -> Result<Report, Fault>
        ensures answer { result ≡ (if nat_eq (length place.old) 9 then Ok (report_in self.now.search.inner) else Err (in_list Length)) }
        ensures place { place.new ≡ (if nat_eq (length place.old) 9 then numbers_in self.now.search.inner else place.old) }
        ensures ends { IfOk result (λ report. AfterAny (F.Family.meaning self.now.search.family) (gap_value self.now.search.gap) self.now.search.inner report place.new) }
    {
        if place.len() != POINT_NUMBERS {
            return Err(ListFault::Length.into());
        }
        let numbers = self.search.inner.numbers();
        place.copy_from_slice(&numbers);
        Ok(self.search.inner.report())
    }
}
