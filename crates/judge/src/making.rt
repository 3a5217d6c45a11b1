// The offers that the calls of a file make.
ghost use Rattle.std.specs.Prelude.{◌≡◌, ℕ, ◌≤◌, length, take};
ghost use Rattle.file.specs.Contents.{calls_of};
ghost use Rattle.judge.specs.Problems.{call_made, calls_made};
ghost use Rattle.search.specs.Runs.{call_of, calls_in};

use arrayvec::ArrayVec;
use file::call::{Call, Calls, LARGEST};
use search::offer::Offer;

// The offer that a call makes.
fn offer_of<'a>(call: &'a Call) -> Offer<'a>
    ensures { call_of result ≡ call_made call.now }
{
    match call {
        Call::Point(list) => Offer::Point(list),
        Call::Proof(list) => Offer::Proof(list),
        Call::Split { row, side } => Offer::Split {
            row: *row,
            side: *side,
        },
    }
}

// The offers of all calls, in order.
pub(crate) fn offers_of<'a>(calls: &'a Calls) -> ArrayVec<Offer<'a>, LARGEST>
    ensures { calls_in result.items ≡ calls_made (calls_of calls.now) }
{
    let mut offers = ArrayVec::new();
    for call in calls.as_slice() {
        offers.push(offer_of(call));
    }
    offers
}
