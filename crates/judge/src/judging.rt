// From the bytes of a file to a verdict.
ghost use Rattle.std.specs.Prelude.{◌≡◌, ℕ, IsOkAnd, Err, MatchResult};
ghost use Rattle.family.specs.Reading.{gap_value};
ghost use Rattle.file.specs.Contents.{calls_of};
ghost use Rattle.file.specs.Files.{reading};
ghost use Rattle.judge.specs.Verdicts.{JudgedBy, JudgedAs};

use crate::judged::Judged;
use crate::making::offers_of;
use family::Family;
use family::gap::Gap;
use file::call::{Calls, LARGEST};
use file::contents::{AnyDraft, Contents};
use file::fault::FileFault;
use file::reading::read;
use linear::linear_costs::LinearCosts;
use search::outcome::Accepted;
use search::run::run;
use squares::least_squares::LeastSquares;

// The calls of a file as a run over a family.
fn judge_calls<F: Family + Drop>(family: F, gap: Gap, calls: Calls) -> Judged
    ensures { JudgedBy (F.Family.meaning family) (gap_value gap) (calls_of calls) result }
{
    let (quantities, _) = family.size();
    let offers = offers_of(&calls);
    let offers = offers.as_slice();
    let mut outcomes = [Ok(Accepted::Split); LARGEST];
    let Ok(end) = run(family, gap, offers, &mut outcomes[..offers.len()]) else {
        unreachable()
    };
    Judged {
        quantities,
        calls,
        outcomes,
        end,
    }
}

/// Reads a file and judges its calls: the file's refusal, or what became of each call and the report.
pub fn judge(bytes: &[u8]) -> Result<Judged, FileFault>
    ensures { MatchResult result (λ j. IsOkAnd (reading bytes.now) (λ x. JudgedAs x j)) (λ e. reading bytes.now ≡ Err e) }
{
    let Contents { draft, calls } = read(bytes)?;
    // An arm for each family: the two differ in their types, which no value can choose.
    match draft {
        AnyDraft::Squares(draft) => {
            let (family, gap) = LeastSquares::from_draft(draft);
            Ok(judge_calls(family, gap, calls))
        }
        AnyDraft::Linear(draft) => {
            let (family, gap) = LinearCosts::from_draft(draft);
            Ok(judge_calls(family, gap, calls))
        }
    }
}
