// Writing a draft as a file.
ghost use Rattle.std.specs.Prelude.{◌≡◌, length, pos, MatchResult, OnOk};
ghost use Rattle.problem.specs.Calls.{data_of};
ghost use Rattle.problem.specs.Listings.{header_list, listed_row};
ghost use Rattle.file.specs.Contents.{any_data};
ghost use Rattle.file.specs.Kinds.{family_number};
ghost use Rattle.file.specs.Trips.{RoundTrip};
ghost use Rattle.file.specs.Written.{rows_in, write_answer, Written, WrittenAs};

use crate::call::BYTES;
use crate::contents::AnyDraft;
use crate::kinds::FamilyKind;
use family::fault::{Fault, ListFault};
use problem::cost::Cost;
use problem::draft::Draft;

mod records;
mod words;

// Writes a draft of one cost, with its family's number.
fn write_as<C: Cost>(draft: &Draft<C>, family: FamilyKind, place: &mut [u8]) -> Result<(), Fault>
    ensures answer { result ≡ write_answer (length place.old) (data_of draft.now).problem.m }
    ensures written { MatchResult result (λ _. Written place.old place.new (data_of draft.now).problem.m (pos (family_number family)) (header_list (C.Cost.rated draft.now.cost) (data_of draft.now)) (listed_row (data_of draft.now))) (λ _. place.new ≡ place.old) }
{
    // `as usize` of a small number, and not `from`: the proof did not close over what a conversion gives.
    let m = draft.row_count() as u8;
    if place.len() < BYTES * (m as usize + 1) {
        return Err(ListFault::Length.into());
    }
    records::put_head(place, m, family, &draft.header_list());
    // Rows by their index: a draft gives their lists one at a time, and lends no slice of them.
    for i in 0..m {
        records::put_row(place, i + 1, m, &draft.row_list(i as usize));
    }
    Ok(())
}

/// Writes the draft into the place: record 0, its rows in records 1 to m, chained in order, and no calls. A place
/// that is shorter than those records is denied and left as it was; the bytes past them are never changed.
pub fn write(draft: &AnyDraft, place: &mut [u8]) -> Result<(), Fault>
    ensures answer { result ≡ write_answer (length place.old) (rows_in (any_data draft.now)) }
    ensures written { MatchResult result (λ _. WrittenAs place.old place.new (any_data draft.now)) (λ _. place.new ≡ place.old) }
    ensures trip { OnOk result (RoundTrip (any_data draft.now) place.new) }
{
    // An arm for each family: the two differ in their types, which no value can choose.
    match draft {
        AnyDraft::Squares(draft) => write_as(draft, FamilyKind::Squares, place),
        AnyDraft::Linear(draft) => write_as(draft, FamilyKind::Linear, place),
    }
}
