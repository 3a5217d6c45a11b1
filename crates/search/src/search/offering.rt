// One entry for all offers.
ghost use Rattle.search.specs.Calls.{Made};
ghost use Rattle.search.specs.Runs.{call_of};

use crate::offer::Offer;
use crate::outcome::Accepted;
use crate::search::Search;
use family::Family;
use family::fault::Fault;

impl<F: Family> Search<F> {
    /// Makes the call that an offer stands for.
    pub fn offer(&mut self, offer: Offer) -> Result<Accepted, Fault>
        ensures { Made F.Family.meaning self.old (call_of offer.entry) self.new result }
    {
        match offer {
            Offer::Point(list) => self.point(list),
            Offer::Proof(list) => self.proof(list),
            Offer::Split { row, side } => self.split(row, side),
        }
    }
}
