// From the bytes of a file to a verdict.
#![tactic(auto)]

pub mod judged;
pub mod judging;
mod making;
pub mod text;
