// The family of linear problems.
#![tactic(auto)]

mod costs;
mod judging;
pub mod linear_costs;
