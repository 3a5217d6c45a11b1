// The problem file: a draft of a family and the calls to make, as records of twenty words.
#![tactic(auto)]

pub mod call;
mod chains;
pub mod contents;
pub mod fault;
mod kinds;
mod reached;
pub mod reading;
mod records;
mod words;
pub mod writing;
