// What a file holds.
use crate::call::Calls;
use problem::cost::{Linear, Squares};
use problem::draft::Draft;

/// A draft of either family.
#[derive(Drop)]
pub enum AnyDraft {
    Squares(Draft<Squares>),
    Linear(Draft<Linear>),
}

/// A draft and the calls to make.
#[derive(Drop)]
pub struct Contents {
    pub draft: AnyDraft,
    pub calls: Calls,
}
