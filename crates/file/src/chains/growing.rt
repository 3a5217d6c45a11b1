// A draft grows by rows, and a list of calls by calls.
ghost use Rattle.std.specs.Prelude.{◌≡◌, ℕ, length, List};
ghost use Rattle.problem.specs.Calls.{Data, data_of};
ghost use Rattle.file.specs.declared.call.Call.{Call as ACall};
ghost use Rattle.file.specs.Contents.{calls_of};
ghost use Rattle.file.specs.Files.{call_added};
ghost use Rattle.file.specs.Records.{in_record, row_added, call_in};
ghost use Rattle.file.specs.Walks.{words_of};

use crate::call::{Call, Calls};
use crate::chains::Grows;
use crate::fault::{FileFault, InRecord};
use crate::kinds::CallKind;
use crate::records::Record;
use family::fault::Fault;
use family::sizes::ROW_NUMBERS;
use problem::cost::Cost;
use problem::draft::Draft;
use problem::kind::Kind;

// A fault below is kept whole, with the record.
pub(crate) fn in_record(r: usize, answer: Result<(), Fault>) -> Result<(), FileFault>
    ensures { result ≡ in_record r answer }
{
    answer.map_err(|fault| InRecord { at: r, fault }.into())
}

// The call that a record asks for.
fn call(entry: &Record) -> Result<Call, FileFault>
    ensures { result ≡ call_in (words_of entry.now) entry.now.at }
{
    // An unknown kind is an arm beside the others: `map_err` and `?` before the match would be no plainer.
    match CallKind::try_from(entry.word(1)) {
        Ok(CallKind::Point) => Ok(Call::Point(entry.list(2)?)),
        Ok(CallKind::Proof) => Ok(Call::Proof(entry.list(2)?)),
        Ok(CallKind::Split) => {
            let [row, side] = entry.list::<2>(2)?;
            Ok(Call::Split { row, side })
        }
        Err(_) => Err(FileFault::Kind { at: entry.at }),
    }
}

impl<C: Cost> Grows for Draft<C> {
    ghost Held = { Data C };

    ghost seen = { data_of };

    ghost size = { λ _. 0 };

    ghost added = { row_added };

    fn add(&mut self, entry: &Record) -> Result<(), FileFault> {
        // No `map_err` with `?`: the proof did not close over what the closure makes of the fault.
        if Kind::try_from(entry.word(1)).is_err() {
            return Err(FileFault::Kind { at: entry.at });
        }
        let list: [i32; ROW_NUMBERS] = entry.list(1)?;
        in_record(entry.at, self.add_row(&list))
    }
}

impl Grows for Calls {
    ghost Held = { List ACall };

    ghost seen = { calls_of };

    ghost size = { length };

    ghost added = { call_added };

    fn add(&mut self, entry: &Record) -> Result<(), FileFault> {
        self.push(call(entry)?);
        Ok(())
    }
}
