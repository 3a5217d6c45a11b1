// What stands in a table of offers where no offer is yet.
ghost use Rattle.std.specs.Prelude.{◌≡◌, pos};
ghost use Rattle.search.specs.declared.offer.Offer.TheVariants.{Split};

use crate::offer::Offer;

impl Default for Offer<'_> {
    ghost is_default = { λ offer. offer ≡ Split (pos 0) (pos 0) };

    fn default() -> Self {
        Offer::Split { row: 0, side: 0 }
    }
}
