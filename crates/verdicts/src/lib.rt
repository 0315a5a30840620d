// How a build ends (document 01, "Refusal numbers and their order", and requests Five and Seven): the verdict on its
// maps, and what a jam leaves in the stores.
//
// Every function is proved and the crate assumes nothing. `settle` asks for stores whose lengths its callers have
// tested.
#![tactic(auto)]

ghost use Rattle.std.specs.Prelude.{◌≡◌};
ghost use Rattle.refusals.specs.Numbers.{said_by_build};
ghost use Rattle.stores.specs.Sizes.{Fits};
ghost use Rattle.stores.specs.Stores.{sizes_of, cleared_stores};
ghost use Rattle.stores.specs.Inner.{held, SameStores};
ghost use Rattle.verdicts.specs.Inner.{Settled};

use cells::clear;
use refusals::{Jam, Unbuilt, Verdict};
use stores::Sizes;
use stores::lent::Stores;

// All stores become 0 over their named lengths, those too that were not written: what a jam leaves.
fn clear_stores(want: Sizes, stores: &mut Stores)
    requires { Fits (sizes_of (held stores.old)) want }
    ensures clears { held stores.new ≡ cleared_stores want (held stores.old) }
    ensures same { SameStores stores.old stores.new }
{
    clear(stores.cells, want.cells, 0);
    clear(stores.handles, want.handles, 0);
    clear(stores.left, want.left, 0);
    clear(stores.right, want.right, 0);
    clear(stores.work, want.work, 0);
    clear(stores.lengths, want.lengths, 0);
}

// The verdict on the maps of a build that is judged: `maps` tells the first that has a jam, if one has. After a jam all
// stores are cleared over their named lengths, whichever map had it; otherwise nothing is changed.
#[tactic(auto, unfolding(crate::specs::Inner::Settled))]
pub fn settle(maps: Result<(), Jam>, want: Sizes, stores: &mut Stores) -> Verdict
    requires { Fits (sizes_of (held stores.old)) want }
    ensures settles { Settled want maps (held stores.old) (said_by_build result) (held stores.new) }
    ensures same { SameStores stores.old stores.new }
{
    if let Err(jam) = maps {
        clear_stores(want, stores);
        return Err(Unbuilt::Jammed(jam));
    }
    Ok(())
}
