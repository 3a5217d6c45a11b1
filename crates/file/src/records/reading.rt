// Reading records: words, lists, unused words and links.
ghost use Rattle.std.specs.Prelude.{◌≡◌, ℕ, ◌+◌, ◌*◌, ◌<◌, ◌≤◌, length, Ok, Err, MatchOption};
ghost use Rattle.file.specs.declared.fault.FileFault.TheVariants.{Unused};
ghost use Rattle.file.specs.Chains.{targeted, next};
ghost use Rattle.file.specs.Files.{linked};
ghost use Rattle.file.specs.Records.{cell, unused, listed};
ghost use Rattle.file.specs.Walks.{reached_in, New, Counts, words_in, words_of, first_word, Names};
ghost use Rattle.file.specs.Words.{span};

use crate::call::{BYTES, LARGEST};
use crate::fault::FileFault;
use crate::reached::Reached;
use crate::records::{Chain, Record, Records, WORDS};
use crate::words;

impl Record<'_> {
    // Word w.
    pub(crate) fn word(&self, w: usize) -> i32
        requires { w < 20 }
        ensures { result ≡ cell (words_of self.now) self.now.at w }
    {
        words::get(self.bytes, WORDS * self.at + w)
    }

    // The first word from `from` on that is not 0.
    fn first_used(&self, from: usize) -> Option<usize>
        requires { from ≤ 20 }
        ensures { MatchOption result (unused (words_of self.now) self.now.at from ≡ Ok tt) (λ w. unused (words_of self.now) self.now.at from ≡ Err (Unused self.now.at w)) }
    {
        (from..WORDS).find(|&w| self.word(w) != 0)
    }

    // The words from `from` on are not in use.
    pub(crate) fn check_unused(&self, from: usize) -> Result<(), FileFault>
        requires { from ≤ 20 }
        ensures { result ≡ unused (words_of self.now) self.now.at from }
    {
        // A match, as `map_or` with a good answer and a closure that gives the bad one would be no plainer.
        match self.first_used(from) {
            Some(word) => Err(FileFault::Unused { at: self.at, word }),
            None => Ok(()),
        }
    }

    // The N numbers from word w on.
    pub(crate) fn numbers<const N: usize>(&self, w: usize) -> [i32; N]
        requires { w + N ≤ 20 }
        ensures { result ≡ span (words_of self.now) (20 * self.now.at + w) N }
    {
        let mut numbers = [0; N];
        words::copy(self.bytes, WORDS * self.at + w, &mut numbers);
        numbers
    }

    // The N numbers from word w on, where no word after them is in use.
    pub(crate) fn list<const N: usize>(&self, w: usize) -> Result<[i32; N], FileFault>
        requires { w + N ≤ 20 }
        ensures { result ≡ listed (words_of self.now) self.now.at w N }
    {
        self.check_unused(w + N)?;
        Ok(self.numbers(w))
    }
}

impl Chain {
    // The word of record 0 in which the chain begins.
    pub(crate) fn first(self) -> usize
        ensures { result ≡ first_word self }
    {
        match self {
            Chain::Rows => 0,
            Chain::Calls => 1,
        }
    }
}

impl<'a> Records<'a> {
    // The records of a file, or that its length is wrong.
    pub(crate) fn of(bytes: &'a [u8]) -> Result<Records<'a>, FileFault>
        ensures { Counts bytes.now result }
    {
        let count = bytes.len() / BYTES;
        if bytes.len() % BYTES != 0 || !(1..=LARGEST).contains(&count) {
            return Err(FileFault::Length);
        }
        Ok(Records { bytes, count })
    }

    // The record with this number.
    pub(crate) fn record(&self, r: usize) -> Record<'a>
        requires { r < self.now.count }
        ensures { Names self.now r result }
    {
        Record {
            bytes: self.bytes,
            at: r,
        }
    }

    // The record that a link names, if the file has it.
    fn target(&self, link: i32) -> Option<usize>
        ensures { result ≡ targeted link self.now.count }
    {
        // The cases of its definition; `ok().filter(..)` would need a proof beside it and be no plainer.
        match usize::try_from(link) {
            Ok(k) if k < self.count => Some(k),
            _ => None,
        }
    }

    // The link with which a chain begins lies in the file.
    pub(crate) fn check_link(&self, chain: Chain) -> Result<(), FileFault>
        ensures { result ≡ linked (words_in self.now) self.now.count (first_word chain) }
    {
        let word = chain.first();
        self.target(self.record(0).word(word))
            .ok_or(FileFault::Link { at: 0, word })?;
        Ok(())
    }

    // Where the link in word w of record r leads: to a record that was not reached before, or to the end.
    pub(crate) fn next(
        &self,
        reached: &Reached,
        r: usize,
        w: usize,
    ) -> Result<Option<usize>, FileFault>
        requires within { r < self.now.count }
        requires word { w < 20 }
        ensures value { result ≡ next (words_in self.now) self.now.count (reached_in reached.now) r w }
        ensures new { New result self.now.count (reached_in reached.now) }
    {
        match self.target(self.record(r).word(w)) {
            Some(0) => Ok(None),
            Some(k) if !reached.contains(k) => Ok(Some(k)),
            _ => Err(FileFault::Link { at: r, word: w }),
        }
    }
}
