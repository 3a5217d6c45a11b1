// Walking the chains of a file.
ghost use Rattle.std.specs.Prelude.{◌≡◌, ℕ, ◌+◌, ◌<◌, ◌≤◌, ℤ, length, OnOk, Result};
ghost use Rattle.file.specs.declared.fault.FileFault.{FileFault as Fault};
ghost use Rattle.file.specs.Walks.{reached_in, words_in, words_of, first_word, walked, ComesTo};

use crate::fault::FileFault;
use crate::reached::Reached;
use crate::records::{Chain, Record, Records};

pub(crate) mod growing;

/// What grows by the records of a chain.
pub(crate) trait Grows {
    /// What it holds, how much of that takes up room, and what a record adds to it.
    ghost Held: { Type 0 };

    ghost seen: { Self → Held };

    ghost size: { Held → ℕ };

    ghost added: { (ℕ → ℤ) → ℕ → Held → Result Held Fault };

    /// Takes in a record.
    fn add(&mut self, entry: &Record) -> Result<(), FileFault>
        requires room { size (seen self.old) < 819 }
        ensures comes { ComesTo (added (words_of entry.now) entry.now.at (seen self.old)) (seen self.new) result }
        ensures grows { OnOk result (size (seen self.new) ≤ size (seen self.old) + 1) };
}

// Takes in the records of a chain, one after the other.
pub(crate) fn walk<T: Grows>(
    into: &mut T,
    reached: &mut Reached,
    records: &Records,
    chain: Chain,
) -> Result<(), FileFault>
    requires { T.size (T.seen into.old) ≤ length (reached_in reached.old) }
    ensures { ComesTo (walked (T.added (words_in records.now)) (words_in records.now) records.now.count (reached_in reached.old) (T.seen into.old) (first_word chain)) (T.seen into.new, reached_in reached.new) result }
{
    let mut r = 0;
    let mut w = chain.first();
    while let Some(k) = records.next(reached, r, w)? {
        into.add(&records.record(k))?;
        reached.push(k);
        r = k;
        w = 0;
    }
    Ok(())
}
