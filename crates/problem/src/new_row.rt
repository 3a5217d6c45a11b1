// The numbers of a row that is to be added.
use crate::coefficients::Coefficients;
use crate::row::Row;

mod reading;

/// A row with its coefficients.
#[derive(Clone, Copy)]
pub struct NewRow {
    pub row: Row,
    pub coefficients: Coefficients,
}
