// The number, the place and the layer of every fault.
use super::{FAMILY, LIST, SEARCH, told};
use family::fault::{Fault, Layer, ListFault, PointFault, ProofFault, StateFault};

/// A fault and what is told of it. A place that the fault tells is passed on; the others are the rule's.
type Case = (Fault, (u8, usize, Layer));

static CASES: [Case; 13] = [
    (Fault::List(ListFault::Length), (1, 0, LIST)),
    (Fault::List(ListFault::Limit { place: 17 }), (2, 17, LIST)),
    (Fault::List(ListFault::Filler { place: 11 }), (3, 11, LIST)),
    (Fault::List(ListFault::Ends), (4, 3, LIST)),
    (Fault::List(ListFault::Kind), (5, 1, LIST)),
    (
        Fault::Point(PointFault::NotAdmitted { row: 16 }),
        (7, 16, FAMILY),
    ),
    (
        Fault::Proof(ProofFault::NotBalanced { column: 8 }),
        (8, 8, FAMILY),
    ),
    (Fault::State(StateFault::NotSwitch), (9, 1, SEARCH)),
    (Fault::State(StateFault::HasRows), (10, 0, SEARCH)),
    (Fault::State(StateFault::Full), (11, 0, SEARCH)),
    (Fault::State(StateFault::NoNode), (12, 0, SEARCH)),
    (Fault::State(StateFault::AlreadyFixed), (13, 1, SEARCH)),
    (Fault::State(StateFault::Weak), (14, 0, SEARCH)),
];

#[test]
fn each_fault_is_told(rt: HostRuntime) {
    for (fault, answer) in &CASES {
        assert_eq!(rt; told(*fault), *answer);
    }
}

/// What the layers are as numbers.
#[test]
fn layers_keep_their_numbers(rt: HostRuntime) {
    assert_eq!(rt; Layer::List as u8, 0);
    assert_eq!(rt; Layer::Family as u8, 1);
    assert_eq!(rt; Layer::Search as u8, 2);
    assert_eq!(rt; Layer::File as u8, 3);
}
