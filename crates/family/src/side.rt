// The ends at which a switch row can be fixed.
mod numbering;

/// An end of a switch row.
#[derive(Clone, Copy, Debug, PartialEq, Eq)]
pub enum Side {
    Lower,
    Upper,
}
