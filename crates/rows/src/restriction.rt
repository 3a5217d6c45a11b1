// A problem under sides.
use family::sides::Sides;
use problem::table::Problem;

mod admitting;

/// A problem whose switches are fixed as sides tell.
#[derive(Clone, Copy)]
pub struct Restriction<'a> {
    pub problem: &'a Problem,
    pub sides: Sides,
}
