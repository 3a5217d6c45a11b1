// The number, record, place and layer of each fault of a file.
ghost use Rattle.std.specs.Prelude.{◌≡◌, Some};
ghost use Rattle.file.specs.Refusals.{refusal_of, refused_text};
ghost use Rattle.file.specs.declared.fault.FileFault.TheVariants.{Inside};

use crate::fault::{FileFault, InRecord, Refusal};
use family::fault::Layer;
use std::fmt;

impl FileFault {
    /// What is told to the outside of this fault.
    pub fn refusal(self) -> Refusal
        ensures { result ≡ refusal_of self }
    {
        let (number, at, place) = match self {
            FileFault::Length => (1, 0, 0),
            FileFault::Unused { at, word } => (3, at, word),
            FileFault::Kind { at } => (5, at, 1),
            FileFault::Family => (5, 0, 2),
            FileFault::Link { at, word } => (6, at, word),
            FileFault::Inside(inside) => return inside.refusal(),
        };
        Refusal {
            number,
            at,
            place,
            layer: Layer::File,
        }
    }
}

impl InRecord {
    // The fault below with its own place and layer, and the record.
    fn refusal(self) -> Refusal
        ensures { result ≡ refusal_of (Inside self) }
    {
        let denial = self.fault.denial();
        Refusal {
            number: denial.number,
            at: self.at,
            place: denial.place,
            layer: denial.layer,
        }
    }
}

impl fmt::Display for FileFault {
    ghost output = { λ x. Some (refused_text x) };

    fn fmt<W: fmt::Write>(&self, f: &mut fmt::Formatter<W>) -> fmt::Result {
        let Refusal {
            number,
            at,
            place,
            ..
        } = self.refusal();
        write!(f, "refused {number} {at} {place}")
    }
}

// `From` by hand: a derive gives no contract, and the contracts of this crate name the fault that `?` makes.
impl From<InRecord> for FileFault {
    ghost from_gives = { λ e r. r ≡ Inside e };

    fn from(fault: InRecord) -> FileFault {
        FileFault::Inside(fault)
    }
}
