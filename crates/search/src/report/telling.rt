// The words for verdicts.
ghost use Rattle.std.specs.Prelude.{Some};
ghost use Rattle.search.specs.Texts.{verdict_text};

use crate::report::Verdict;
use std::fmt;

impl fmt::Display for Verdict {
    ghost output = { λ x. Some (verdict_text x) };

    fn fmt<W: fmt::Write>(&self, f: &mut fmt::Formatter<W>) -> fmt::Result {
        f.write_str(match self {
            Verdict::Stopped => "stopped",
            Verdict::Best => "best",
            Verdict::Nothing => "none",
        })
    }
}
