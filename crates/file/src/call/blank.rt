// What stands in the room of a list of calls that is not in use.
ghost use Rattle.std.specs.Prelude.{◌≡◌, pos};
ghost use Rattle.file.specs.declared.call.Call.TheVariants.{Split};

use crate::call::Call;

impl Default for Call {
    ghost is_default = { λ call. call ≡ Split (pos 0) (pos 0) };

    fn default() -> Call {
        Call::Split { row: 0, side: 0 }
    }
}
