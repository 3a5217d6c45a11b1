// A whole search at once.
ghost use Rattle.std.specs.Prelude.{◌≡◌, ℕ, Bool, length, is_ok, MatchResult, ◌==◌};
ghost use Rattle.family.specs.declared.fault.Fault.TheVariants.{List as in_list};
ghost use Rattle.family.specs.declared.fault.ListFault.TheVariants.{Length};
ghost use Rattle.family.specs.Reading.{gap_value};
ghost use Rattle.search.specs.Runs.{calls_in, Ran};

use crate::offer::Offer;
use crate::outcome::Accepted;
use crate::report::Report;
use crate::search::Search;
use family::Family;
use family::fault::{Fault, ListFault};
use family::gap::Gap;
use family::sizes::POINT_NUMBERS;

/// The report of a search that is over, and the nine numbers of the held point, all 0 if there is none.
#[derive(Clone, Copy, PartialEq, Eq, Debug)]
pub struct Ended {
    pub report: Report,
    pub point: [i32; POINT_NUMBERS],
}

/// Opens a family and a gap, makes all offers in order, writes what became of each into the place, and stops. A
/// place of another length than the offers is denied, and nothing is written.
pub fn run<F: Family + Drop>(
    family: F,
    gap: Gap,
    offers: &[Offer],
    outcomes: &mut [Result<Accepted, Fault>],
) -> Result<Ended, Fault>
    ensures denied { is_ok result ≡ (length outcomes.old == length offers.now) }
    ensures ran { MatchResult result (λ end. Ran (F.Family.meaning family) (gap_value gap) (calls_in offers.now) end.report end.point outcomes.new) (λ fault. (fault ≡ in_list Length) × (outcomes.new ≡ outcomes.old)) }
{
    if outcomes.len() != offers.len() {
        return Err(ListFault::Length.into());
    }
    let mut search = Search::open(family, gap);
    // No zip of the two: the proof did not close, as nothing is known of what a loop writes through a zip.
    for (index, offer) in offers.iter().enumerate() {
        outcomes[index] = search.offer(*offer);
    }
    let stopped = search.stop();
    let mut point = [0; POINT_NUMBERS];
    let report = stopped.read(&mut point)?;
    Ok(Ended { report, point })
}
