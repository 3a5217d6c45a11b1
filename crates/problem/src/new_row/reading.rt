// Reading a row from a list.
ghost use Rattle.family.specs.Lists.{Read};
ghost use Rattle.problem.specs.NewRows.{row_fault, HasRow};

use crate::coefficients::Coefficients;
use crate::kind::Kind;
use crate::new_row::NewRow;
use crate::row::Row;
use family::fault::ListFault;
use family::shape::Shape;

impl NewRow {
    // The row in a list of eleven numbers for a problem of n quantities, or the list's fault.
    pub(crate) fn read(n: usize, list: &[i32]) -> Result<NewRow, ListFault>
        ensures { Read (row_fault n list.now) (HasRow list.now) result }
    {
        let shape = Shape::Row { quantities: n };
        shape.judge_length(list)?;
        // A slice pattern after the test of the length, by the rule for lists.
        let [kind, lo, hi, rest @ ..] = list else {
            return Err(ListFault::Length);
        };
        let kind = Kind::try_from(*kind)?;
        shape.judge_numbers(list)?;
        if lo > hi {
            return Err(ListFault::Ends);
        }
        Ok(NewRow {
            row: Row {
                kind,
                lo: *lo,
                hi: *hi,
            },
            coefficients: Coefficients::of(rest),
        })
    }
}
