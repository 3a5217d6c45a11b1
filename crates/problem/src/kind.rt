// The kinds of rows.
ghost use Rattle.std.specs.Prelude.{◌≡◌, pos};
ghost use Rattle.problem.specs.Kinds.{kind_number, KindRead};

use family::fault::ListFault;

/// A plain row has a value between its ends; a switch row has one at an end.
#[derive(Clone, Copy, PartialEq, Eq, Debug)]
pub enum Kind {
    Plain,
    Switch,
}

impl TryFrom<i32> for Kind {
    type Error = ListFault;

    ghost try_from_gives = { KindRead };

    fn try_from(number: i32) -> Result<Kind, ListFault> {
        match number {
            1 => Ok(Kind::Plain),
            2 => Ok(Kind::Switch),
            _ => Err(ListFault::Kind),
        }
    }
}

impl From<Kind> for i32 {
    ghost from_gives = { λ kind number. number ≡ pos (kind_number kind) };

    fn from(kind: Kind) -> i32 {
        match kind {
            Kind::Plain => 1,
            Kind::Switch => 2,
        }
    }
}
