// A row that is not in use.
ghost use Rattle.std.specs.Prelude.{◌≡◌};
ghost use Rattle.problem.specs.Tables.{row_data, blank};

use crate::kind::Kind;
use crate::row::Row;

impl Default for Row {
    ghost is_default = { λ row. row_data row ≡ blank };

    fn default() -> Row {
        Row {
            kind: Kind::Plain,
            lo: 0,
            hi: 0,
        }
    }
}
