// Where a map's items come from, as one value.
ghost use Rattle.std.specs.Prelude.{◌≢◌, ◌≡◌};
ghost use Rattle.items.specs.declared.Items.TheVariants.{Handles};
ghost use Rattle.items.specs.Items.{Sorted, Bounds};

use crate::Items;
use tables::delimiters::Delimiters;

// Which map, the table in its buckets, and the bounds of the splits, which the map of the handles alone reads. What the
// builds have tested and written goes with them, so that no function has to ask for it again.
#[derive(Clone, Copy)]
pub struct Source<'a> {
    pub which: Items,
    pub rows: Delimiters<'a>,
    pub left: &'a [u16],
    pub right: &'a [u16],
    ghost sorted: { which ≢ Handles → Sorted rows.b rows.keys.now },
    ghost bounded: { which ≡ Handles → Bounds rows.b rows.keys.now left.now right.now },
}
