// The search over any family of problems: from offers that nobody trusts to a verdict that cannot be false.
#![tactic(auto)]

pub mod advice;
mod frontier;
mod held;
mod inner;
pub mod offer;
pub mod outcome;
mod ratio;
pub mod report;
pub mod run;
pub mod search;
pub mod stopped;
