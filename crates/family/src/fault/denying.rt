// The number, place and layer of each fault, and how a fault is passed on.
ghost use Rattle.std.specs.Prelude.{◌≡◌, Some};
ghost use Rattle.family.specs.Denials.{denial_of, denial_text};
ghost use Rattle.family.specs.declared.fault.Fault.TheVariants.{List, Point, Proof, State};

use crate::fault::{Denial, Fault, Layer, ListFault, PointFault, ProofFault, StateFault};
use std::fmt;

impl Fault {
    /// What is told to the outside of this fault.
    pub fn denial(self) -> Denial
        ensures { result ≡ denial_of self }
    {
        let (number, place, layer) = match self {
            Fault::List(ListFault::Length) => (1, 0, Layer::List),
            Fault::List(ListFault::Limit { place }) => (2, place, Layer::List),
            Fault::List(ListFault::Filler { place }) => (3, place, Layer::List),
            Fault::List(ListFault::Ends) => (4, 3, Layer::List),
            Fault::List(ListFault::Kind) => (5, 1, Layer::List),
            Fault::Point(PointFault::NotAdmitted { row }) => (7, row, Layer::Family),
            Fault::Proof(ProofFault::NotBalanced { column }) => (8, column, Layer::Family),
            Fault::State(StateFault::NotSwitch) => (9, 1, Layer::Search),
            Fault::State(StateFault::HasRows) => (10, 0, Layer::Search),
            Fault::State(StateFault::Full) => (11, 0, Layer::Search),
            Fault::State(StateFault::NoNode) => (12, 0, Layer::Search),
            Fault::State(StateFault::AlreadyFixed) => (13, 1, Layer::Search),
            Fault::State(StateFault::Weak) => (14, 0, Layer::Search),
        };
        Denial {
            number,
            place,
            layer,
        }
    }
}

impl fmt::Display for Denial {
    ghost output = { λ x. Some (denial_text x) };

    fn fmt<W: fmt::Write>(&self, f: &mut fmt::Formatter<W>) -> fmt::Result {
        write!(f, "denied {} {}", self.number, self.place)
    }
}

// `From` by hand: a derive gives no contract, and the contracts of the crates above name the fault that `?` makes.
impl From<ListFault> for Fault {
    ghost from_gives = { λ e r. r ≡ List e };

    fn from(fault: ListFault) -> Fault {
        Fault::List(fault)
    }
}

impl From<PointFault> for Fault {
    ghost from_gives = { λ e r. r ≡ Point e };

    fn from(fault: PointFault) -> Fault {
        Fault::Point(fault)
    }
}

impl From<ProofFault> for Fault {
    ghost from_gives = { λ e r. r ≡ Proof e };

    fn from(fault: ProofFault) -> Fault {
        Fault::Proof(fault)
    }
}

impl From<StateFault> for Fault {
    ghost from_gives = { λ e r. r ≡ State e };

    fn from(fault: StateFault) -> Fault {
        Fault::State(fault)
    }
}
