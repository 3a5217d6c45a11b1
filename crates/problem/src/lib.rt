// A problem and the draft that it grows in.
#![tactic(auto)]

pub mod coefficients;
pub mod cost;
pub mod draft;
mod header;
pub mod kind;
mod matrix;
mod new_row;
pub mod rates;
pub mod row;
pub mod table;
