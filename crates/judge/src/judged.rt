// What a file comes to.
use family::fault::Fault;
use file::call::{Calls, LARGEST};
use search::outcome::Accepted;
use search::run::Ended;

mod lines;

/// The calls of a file, what became of each, at the front of a table, and how the search ended.
#[derive(Drop)]
pub struct Judged {
    pub quantities: usize,
    pub calls: Calls,
    // A table beside the calls: `run` writes into a lent slice, and a fixed vector asks for a default, which `Result` has none of.
    pub outcomes: [Result<Accepted, Fault>; LARGEST],
    pub end: Ended,
}
