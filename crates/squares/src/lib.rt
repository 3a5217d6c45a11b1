// The family of least-squares problems.
#![tactic(auto)]

mod costs;
mod judging;
pub mod least_squares;
