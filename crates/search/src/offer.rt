// What is offered to a search.
mod blank;

/// A point or a proof as a list of numbers, or a split by a row, counted from 1, and a side, 0 lower and 1 upper.
#[derive(Clone, Copy, PartialEq, Eq, Debug)]
pub enum Offer<'a> {
    Point(&'a [i32]),
    Proof(&'a [i32]),
    // The side is a number: a rule of the project, as an offer may lie outside its limits and is judged here.
    Split { row: i32, side: i32 },
}
