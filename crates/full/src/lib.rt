// The build of both indexes in one operation (requests Seven, Five and Six), so that none is ever had without the
// other.
//
// Every function is proved and the crate assumes nothing. The entry `full_build` has no `requires`: whatever table,
// stores and seeds it is lent, it builds or refuses as specs/Build.antt says.
#![tactic(auto)]

ghost use Rattle.refusals.specs.Numbers.{said_by_build};
ghost use Rattle.stores.specs.Stores.{lent, seeds};
ghost use Rattle.full.specs.Build.{FullBuilt};
ghost use Rattle.full.specs.Inner.{FullReady, MapsBuilt};

use call::build::{build_keys, build_prefixes};
use neighbour::build::build_stores;
use refusals::{Jam, StaticMap, Verdict};
use stores::Sizes;
use stores::lent::Stores;
use tables::delimiters::Delimiters;

// Maps 1, 2 and 3 with the bounds and the lengths, up to the first map that has a jam. After a jam the stores hold what
// was written so far. The neighbour index is over the table itself, the delimiters of buckets of one row.
#[tactic(auto, using(crate::proofs::Building::built))]
fn build_maps(
    rows: &Delimiters,
    seed1: u64,
    seed2: u64,
    seed3: u64,
    cells: &mut [u16],
    handles: &mut [u16],
    left: &mut [u16],
    right: &mut [u16],
    work: &mut [u16],
    lengths: &mut [u8],
) -> Result<(), Jam>
    requires { FullReady rows.now.keys.now rows.now.b
        (lent cells.old handles.old left.old right.old work.old lengths.old) }
    ensures { MapsBuilt rows.now.keys.now rows.now.b (seeds seed1 seed2 seed3)
        (lent cells.old handles.old left.old right.old work.old
        lengths.old)
        result
        (lent cells.new handles.new left.new right.new work.new
        lengths.new) }
{
    build_keys(rows, seed1, cells, work).map_err(|size| StaticMap::Keys.jam(size))?;
    build_prefixes(rows, seed2, cells, work).map_err(|size| StaticMap::Prefixes.jam(size))?;
    let table = Delimiters::new(rows.keys, 1);
    build_stores(&table, seed3, handles, left, right, work, lengths).map_err(
        |size| StaticMap::Handles.jam(size),
    )?;
    Ok(())
}

// Builds both indexes of a table, or refuses with the lowest number that applies, over all stores together. The row
// bytes are no store of a build. `slim_build` stays beside it: the requests name both entries, and their maps and seeds
// differ.
pub fn full_build(
    keys: &[u64],
    b: usize,
    seed1: u64,
    seed2: u64,
    seed3: u64,
    cells: &mut [u16],
    handles: &mut [u16],
    left: &mut [u16],
    right: &mut [u16],
    work: &mut [u16],
    lengths: &mut [u8],
) -> Verdict
    ensures { FullBuilt keys.now b (seeds seed1 seed2 seed3)
        (lent cells.old handles.old left.old right.old work.old
        lengths.old)
        (said_by_build result)
        (lent cells.new handles.new left.new right.new work.new
        lengths.new) }
{
    stores::limits(keys.len(), b)?;
    let want = stores::full_sizes(keys.len(), b);
    let have = Sizes {
        cells: cells.len(),
        handles: handles.len(),
        left: left.len(),
        right: right.len(),
        work: work.len(),
        lengths: lengths.len(),
        bytes: 0,
    };
    stores::judge(keys, have, want)?;
    let rows = Delimiters::new(keys, b);
    let maps = build_maps(
        &rows, seed1, seed2, seed3, cells, handles, left, right, work, lengths,
    );
    let mut stores = Stores {
        cells,
        handles,
        left,
        right,
        work,
        lengths,
    };
    verdicts::settle(maps, want, &mut stores)
}
