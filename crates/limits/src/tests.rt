// How the tests write lists and answers.
use family::fault::{Denial, Fault, Layer};
use std::process::Abort;

mod denials;
mod drafts;
mod lengths;
mod lists;

const LIST: Layer = Layer::List;

const FAMILY: Layer = Layer::Family;

const SEARCH: Layer = Layer::Search;

/// The number, the place and the layer of a denial, or None where a call is taken.
type Answer = Option<(u8, usize, Layer)>;

const TAKEN: Answer = None;

/// A list, by the places at which it differs from 1, 0, 0, .. and the numbers there. Every call takes 1, 0, 0, ..
type Changes = &'static [(usize, i32)];

fn list_of<const N: usize>(changes: Changes) -> [i32; N] {
    let mut list = [0; N];
    if let Some(first) = list.first_mut() {
        *first = 1;
    }
    for (place, number) in changes {
        if (1..=N).contains(place) {
            list[*place - 1] = *number;
        }
    }
    list
}

// Also in the tests of searches: a crate for two small functions would be no plainer.
fn told(fault: Fault) -> (u8, usize, Layer) {
    let Denial {
        number,
        place,
        layer,
    } = fault.denial();
    (number, place, layer)
}

fn answer_to<T: Drop, E: Into<Fault> + Drop>(res: Result<T, E>) -> Answer {
    res.err().map(|fault| told(fault.into()))
}

fn check_answer(rt: &impl Abort, got: Answer, answer: Answer, changes: Changes) {
    assert_eq!(rt; got, answer, "{changes:?}");
}
