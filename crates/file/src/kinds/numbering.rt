// From numbers to kinds, and back for what is written.
ghost use Rattle.std.specs.Prelude.{◌≡◌, pos};
ghost use Rattle.family.specs.Numbers.{Numbered};
ghost use Rattle.file.specs.Kinds.{family_number, call_number};

use crate::kinds::{CallKind, FamilyKind};
use family::unknown::Unknown;

impl TryFrom<i32> for FamilyKind {
    type Error = Unknown;

    ghost try_from_gives = { Numbered family_number };

    fn try_from(number: i32) -> Result<FamilyKind, Unknown> {
        match number {
            1 => Ok(FamilyKind::Squares),
            2 => Ok(FamilyKind::Linear),
            _ => Err(Unknown),
        }
    }
}

impl From<FamilyKind> for i32 {
    ghost from_gives = { λ kind number. number ≡ pos (family_number kind) };

    fn from(kind: FamilyKind) -> i32 {
        match kind {
            FamilyKind::Squares => 1,
            FamilyKind::Linear => 2,
        }
    }
}

impl TryFrom<i32> for CallKind {
    type Error = Unknown;

    ghost try_from_gives = { Numbered call_number };

    fn try_from(number: i32) -> Result<CallKind, Unknown> {
        match number {
            3 => Ok(CallKind::Point),
            4 => Ok(CallKind::Proof),
            5 => Ok(CallKind::Split),
            _ => Err(Unknown),
        }
    }
}
