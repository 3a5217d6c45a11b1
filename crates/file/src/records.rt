// The records of a file.
ghost use Rattle.std.specs.Prelude.{◌≡◌, ℕ, ◌+◌, ◌*◌, ◌<◌, ◌≤◌, length};

mod reading;

/// As many words as a record has.
pub(crate) const WORDS: usize = 20;

/// The bytes of a file: from 1 to 819 records of twenty words each.
#[derive(Clone, Copy)]
pub(crate) struct Records<'a> {
    // Bytes and a count, not a slice of records: the definitions go by the words of the whole file, and each word would have to
    // be found again in its record.
    bytes: &'a [u8],
    count: usize,
    ghost some: { 0 < count },
    ghost few: { count ≤ 819 },
    ghost inside: { 80 * count ≤ length bytes.now },
}

/// One record among the bytes of a file.
#[derive(Clone, Copy)]
pub(crate) struct Record<'a> {
    bytes: &'a [u8],
    pub(crate) at: usize,
    ghost inside: { 80 * at + 80 ≤ length bytes.now },
}

/// A chain of records, which begins in a word of record 0.
#[derive(Clone, Copy)]
pub(crate) enum Chain {
    Rows,
    Calls,
}
