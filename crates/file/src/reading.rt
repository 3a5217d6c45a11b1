// Reading a whole file.
ghost use Rattle.std.specs.Prelude.{◌≡◌, ℕ, Bool};
ghost use Rattle.std.specs.Result.{result_map_both};
ghost use Rattle.problem.specs.Calls.{data_of};
ghost use Rattle.file.specs.Contents.{calls_of, contents_of};
ghost use Rattle.file.specs.Files.{headed, in_file, reading};
ghost use Rattle.file.specs.Walks.{words_in};

use crate::call::Calls;
use crate::chains::growing::in_record;
use crate::chains::walk;
use crate::contents::{AnyDraft, Contents};
use crate::fault::FileFault;
use crate::kinds::FamilyKind;
use crate::reached::Reached;
use crate::records::{Chain, Records};
use family::sizes::HEADER_NUMBERS;
use problem::cost::{Cost, Linear, Squares};
use problem::draft::Draft;

// A draft with the header of record 0.
fn header<C: Cost + Drop>(cost: C, records: &Records) -> Result<Draft<C>, FileFault>
    ensures { result_map_both data_of (λ e. e) result ≡ headed cost (C.Cost.rated cost) (words_in records.now) }
{
    let list: [i32; HEADER_NUMBERS] = records.record(0).list(3)?;
    let mut draft = Draft::new(cost);
    in_record(0, draft.header(&list))?;
    Ok(draft)
}

// A file of one family, after its links and its family are judged.
fn read_as<C: Cost + Drop>(cost: C, records: &Records) -> Result<(Draft<C>, Calls), FileFault>
    ensures { result_map_both (λ x. (data_of x.0, calls_of x.1)) (λ e. e) result ≡ in_file cost (C.Cost.rated cost) (words_in records.now) records.now.count }
{
    let mut draft = header(cost, records)?;
    let mut reached = Reached::none();
    walk(&mut draft, &mut reached, records, Chain::Rows)?;
    let mut calls = Calls::new();
    walk(&mut calls, &mut reached, records, Chain::Calls)?;
    Ok((draft, calls))
}

/// The draft and the calls that a file holds, or what is wrong with it first.
pub fn read(bytes: &[u8]) -> Result<Contents, FileFault>
    ensures { result_map_both contents_of (λ e. e) result ≡ reading bytes.now }
{
    let records = Records::of(bytes)?;
    records.check_link(Chain::Rows)?;
    records.check_link(Chain::Calls)?;
    // An arm for each family: the two differ in their types, which no value can choose. A number that is no family is an
    // arm beside them: `map_err` and `?` before the match would be no plainer.
    match FamilyKind::try_from(records.record(0).word(2)) {
        Ok(FamilyKind::Squares) => {
            let (draft, calls) = read_as(Squares, &records)?;
            Ok(Contents {
                draft: AnyDraft::Squares(draft),
                calls,
            })
        }
        Ok(FamilyKind::Linear) => {
            let (draft, calls) = read_as(Linear, &records)?;
            Ok(Contents {
                draft: AnyDraft::Linear(draft),
                calls,
            })
        }
        Err(_) => Err(FileFault::Family),
    }
}
