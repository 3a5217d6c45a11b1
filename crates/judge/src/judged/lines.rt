// The lines that are printed of a judged file.
ghost use Rattle.std.specs.Prelude.{◌≡◌, ℕ, ◌≤◌, length, MatchOption};
ghost use Rattle.file.specs.Contents.{calls_of};
ghost use Rattle.judge.specs.Lines.{LineAt, IsLastLine};

use crate::judged::Judged;
use crate::text::{LastLine, Line, Outcome};

impl Judged {
    /// The line of the call with this index, or None past the last call.
    pub fn line(&self, index: usize) -> Option<Line>
        ensures { MatchOption result (length (calls_of self.now.calls) ≤ index) (LineAt self.now index) }
    {
        let call = self.calls.as_slice().get(index)?;
        Some(Line {
            place: index + 1,
            call: *call,
            outcome: Outcome(self.outcomes[index]),
        })
    }

    /// The line of the report.
    pub fn last_line(&self) -> LastLine
        ensures { IsLastLine self.now result }
    {
        LastLine {
            quantities: self.quantities,
            end: self.end,
        }
    }
}
