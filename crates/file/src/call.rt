// The calls that a file asks for.
use arrayvec::ArrayVec;
use family::sizes::{POINT_NUMBERS, PROOF_NUMBERS};

mod blank;

/// As many records as a file has at most, and so as many calls.
pub const LARGEST: usize = 819;

/// As many bytes as a record has.
pub const BYTES: usize = 80;

/// The numbers of a point or a proof, or the row and the side of a split, as the file has them: they are judged when
/// the call is made.
#[derive(Clone, Copy, Debug, PartialEq, Eq)]
pub enum Call {
    Point([i32; POINT_NUMBERS]),
    Proof([i32; PROOF_NUMBERS]),
    // The side is a number, by the rules: it may lie outside its limits, and is judged when the call is made.
    Split { row: i32, side: i32 },
}

/// Calls in the order of their chain.
pub type Calls = ArrayVec<Call, LARGEST>;
