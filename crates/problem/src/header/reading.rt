// Reading a header from a list.
ghost use Rattle.std.specs.Prelude.{◌≡◌, Bool};
ghost use Rattle.family.specs.Lists.{Read};
ghost use Rattle.problem.specs.Headers.{rates_in_use, header_fault, HasHeader};

use crate::header::Header;
use crate::rates::Rates;
use family::fault::ListFault;
use family::gap::Gap;
use family::shape::Shape;

// How many of the eight rates are no fillers: as many as the list has quantities, if rates count at all.
fn rates_in_use(rated: bool, list: &[i32]) -> usize
    ensures { result ≡ rates_in_use rated list.now }
{
    if rated {
        list.first().map_or(0, |n| n.unsigned_abs() as usize)
    } else {
        0
    }
}

impl Header {
    // The header in a list of ten numbers, or the list's fault.
    pub(crate) fn read(rated: bool, list: &[i32]) -> Result<Header, ListFault>
        ensures { Read (header_fault rated list.now) (HasHeader list.now) result }
    {
        let rates = rates_in_use(rated, list);
        Shape::Header { rates }.judge(list)?;
        // A slice pattern after the test of the length, by the rule for lists.
        let [n, gap, rates @ ..] = list else {
            return Err(ListFault::Length);
        };
        Ok(Header {
            n: n.unsigned_abs() as usize,
            gap: Gap::new(*gap).ok_or(ListFault::Limit { place: 2 })?,
            rates: Rates::of(rates),
        })
    }
}
