// What is wrong with a file.
use family::fault::{Fault, Layer};

mod denying;

/// A fault that a record's list, or the draft, showed, whole, and the record.
#[derive(Clone, Copy, Debug, PartialEq, Eq)]
pub struct InRecord {
    pub at: usize,
    pub fault: Fault,
}

/// What the reader finds in a file. Words are counted from 0.
#[derive(Clone, Copy, Debug, PartialEq, Eq)]
pub enum FileFault {
    /// The file is no whole number of records from 1 to 819.
    Length,
    /// A word that is not in use is not 0.
    Unused { at: usize, word: usize },
    /// The record's kind does not belong in this chain.
    Kind { at: usize },
    /// The family is unknown.
    Family,
    /// The link in this word leads outside the file or to a record that was reached before.
    Link { at: usize, word: usize },
    /// The record's list is denied.
    Inside(InRecord),
}

/// A refusal of a file as it is told to the outside.
#[derive(Clone, Copy, Debug, PartialEq, Eq)]
pub struct Refusal {
    // A number, by the rules: it is what is printed.
    pub number: u8,
    pub at: usize,
    pub place: usize,
    pub layer: Layer,
}
