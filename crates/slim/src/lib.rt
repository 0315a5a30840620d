// The slim profile (request One, with Five, Six and Eight), for machines with little memory: one map on all keys whose
// whole value is the offset in the bucket, and a neighbour index over the last key of each bucket, which finds the
// bucket. This crate has its build, and hands on its ask and its named lengths.
//
// Every function is proved and the crate assumes nothing. The entry `slim_build` has no `requires`: whatever table,
// stores and seeds it is lent, it builds or refuses as specs/Build.antt says.
#![tactic(auto)]

ghost use Rattle.refusals.specs.Numbers.{said_by_build};
ghost use Rattle.stores.specs.Stores.{lent};
ghost use Rattle.items.specs.Items.{Sorted, offset_values};
ghost use Rattle.maps.specs.Built.{Room, Built};
ghost use Rattle.slim.specs.Build.{SlimBuilt};
ghost use Rattle.slim.specs.Inner.{SlimReady, MapsBuilt};

use items::Items;
use items::source::Source;
use neighbour::build::build_stores;
use refusals::{Jam, StaticMap, Verdict};
pub use slimask::{SlimAnswer, slim_ask};
pub use slimstores::slim_lengths;
use stores::Sizes;
use stores::lent::Stores;
use tables::delimiters::Delimiters;

// Map 1, on all keys: the whole value is the offset. Where it has a jam, the error is the size of the largest one. It is
// `call::build::build_keys` but for the items: what the two share is `maps::build::build`, and beside it a literal.
fn build_offsets(
    rows: &Delimiters,
    seed1: u64,
    offsets: &mut [u16],
    work: &mut [u16],
) -> Result<(), usize>
    requires { Sorted rows.now.b rows.now.keys.now × Room rows.now.keys.now offsets.old work.old }
    ensures { Built seed1 rows.now.keys.now (offset_values rows.now.b rows.now.keys.now) offsets.old
        work.old result offsets.new work.new }
{
    let source = Source {
        which: Items::Offsets,
        rows: *rows,
        left: &[],
        right: &[],
    };
    maps::build::build(&source, seed1, offsets, work)
}

// Map 1, then map 3 with the bounds and the lengths of the delimiters, up to the first map that has a jam. After a jam
// the stores hold what was written so far. There is no map 2: the walk finds the bucket.
#[tactic(auto, using(crate::proofs::Building::built))]
fn build_maps(
    rows: &Delimiters,
    seed1: u64,
    seed3: u64,
    offsets: &mut [u16],
    handles: &mut [u16],
    left: &mut [u16],
    right: &mut [u16],
    work: &mut [u16],
    lengths: &mut [u8],
) -> Result<(), Jam>
    requires { SlimReady rows.now.keys.now rows.now.b
        (lent offsets.old handles.old left.old right.old work.old lengths.old) }
    ensures { MapsBuilt rows.now.keys.now rows.now.b seed1 seed3
        (lent offsets.old handles.old left.old right.old
        work.old lengths.old)
        result
        (lent offsets.new handles.new left.new right.new work.new
        lengths.new) }
{
    build_offsets(rows, seed1, offsets, work).map_err(|size| StaticMap::Keys.jam(size))?;
    build_stores(rows, seed3, handles, left, right, work, lengths).map_err(
        |size| StaticMap::Handles.jam(size),
    )?;
    Ok(())
}

// Builds the slim index of a table, or refuses with the lowest number that applies, over all stores together. The row
// bytes are no store of a build. `full_build` stays beside it: the requests name both entries, and their maps and seeds
// differ.
pub fn slim_build(
    keys: &[u64],
    b: usize,
    seed1: u64,
    seed3: u64,
    offsets: &mut [u16],
    handles: &mut [u16],
    left: &mut [u16],
    right: &mut [u16],
    work: &mut [u16],
    lengths: &mut [u8],
) -> Verdict
    ensures { SlimBuilt keys.now b seed1 seed3
        (lent offsets.old handles.old left.old right.old
        work.old lengths.old)
        (said_by_build result)
        (lent offsets.new handles.new left.new right.new work.new
        lengths.new) }
{
    stores::limits(keys.len(), b)?;
    let want = slimstores::build_sizes(keys.len(), b);
    let have = Sizes {
        cells: offsets.len(),
        handles: handles.len(),
        left: left.len(),
        right: right.len(),
        work: work.len(),
        lengths: lengths.len(),
        bytes: 0,
    };
    stores::judge(keys, have, want)?;
    let rows = Delimiters::new(keys, b);
    let maps = build_maps(
        &rows, seed1, seed3, offsets, handles, left, right, work, lengths,
    );
    let mut stores = Stores {
        cells: offsets,
        handles,
        left,
        right,
        work,
        lengths,
    };
    verdicts::settle(maps, want, &mut stores)
}
