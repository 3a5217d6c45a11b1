// A search that is over.
use crate::search::Search;
use family::Family;

mod reading;

/// A stopped search: it can be read, and no offer can be made to it.
#[derive(Drop)]
pub struct Stopped<F: Family> {
    search: Search<F>,
}
