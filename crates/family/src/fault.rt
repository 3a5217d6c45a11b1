// Why a call is denied.
mod denying;

/// What a list of numbers shows by itself.
#[derive(Clone, Copy, Debug, PartialEq, Eq)]
pub enum ListFault {
    /// The list has the wrong length.
    Length,
    /// The number at this place, counted from 1, lies outside its limit.
    Limit { place: usize },
    /// The filler at this place, counted from 1, is not 0.
    Filler { place: usize },
    /// A row's lower end lies above its upper end.
    Ends,
    /// A row's kind is unknown.
    Kind,
}

/// Why a family does not take a point.
#[derive(Clone, Copy, Debug, PartialEq, Eq)]
pub enum PointFault {
    /// This row, counted from 1, stops the point.
    NotAdmitted { row: usize },
}

/// Why a family does not take a proof.
#[derive(Clone, Copy, Debug, PartialEq, Eq)]
pub enum ProofFault {
    /// This column, counted from 1, does not balance.
    NotBalanced { column: usize },
}

/// What a draft or a search does not allow in its present state.
#[derive(Clone, Copy, Debug, PartialEq, Eq)]
pub enum StateFault {
    /// The row to split at is no switch.
    NotSwitch,
    /// The draft has rows already, so its header stays.
    HasRows,
    /// The draft has sixteen rows already.
    Full,
    /// No node is open.
    NoNode,
    /// The row to split at is fixed already.
    AlreadyFixed,
    /// The proof is too weak to close the node.
    Weak,
}

/// Why a call is denied.
#[derive(Clone, Copy, Debug, PartialEq, Eq)]
pub enum Fault {
    List(ListFault),
    Point(PointFault),
    Proof(ProofFault),
    State(StateFault),
}

/// The part of the selector that a denial speaks for.
#[derive(Clone, Copy, Debug, PartialEq, Eq)]
pub enum Layer {
    List,
    Family,
    Search,
    File,
}

/// A denial as it is told to the outside. The place is 0 where there is none to tell.
#[derive(Clone, Copy, Debug, PartialEq, Eq)]
pub struct Denial {
    // A number, by the rules: it is what callers and files are told.
    pub number: u8,
    pub place: usize,
    pub layer: Layer,
}
