// The stores that a caller lends (document 01, "Refusal numbers and their order"): refusals 1 and 2, the named lengths
// of the full index, the first store that is too short, and what a build refuses before it builds.
//
// Every function is proved and the crate assumes nothing. `limits`, `named_lengths`, `short_store` and `judge` take
// whatever they are handed; the others ask for sizes that their callers have tested.
#![tactic(auto)]

ghost use Rattle.std.specs.Prelude.{◌≡◌, ◌≤◌};
ghost use Rattle.refusals.specs.Numbers.{taken, refused};
ghost use Rattle.stores.specs.Limits.{limited};
ghost use Rattle.stores.specs.Sizes.{number_named, short_store, store_sizes, full_sizes, call_sizes, neighbour_sizes};
ghost use Rattle.stores.specs.Sizes.{said_by_lend, named_lengths};
ghost use Rattle.stores.specs.Judged.{fall_or_short, said_by_judge};

pub mod lent;

use refusals::{Refusal, Store};
use tables::lengths::{call_cells, call_work, handle_cells};
use tables::table::first_fall;

// How long each store is, or has to be, in the order in which refusal 4 names them, from 1 on: 0 where an entry has no
// such store.
#[derive(Clone, Copy)]
pub struct Sizes {
    pub cells: usize,
    pub handles: usize,
    pub left: usize,
    pub right: usize,
    pub work: usize,
    pub lengths: usize,
    pub bytes: usize,
}

impl Sizes {
    // No store at all.
    pub const NONE: Sizes = Sizes {
        cells: 0,
        handles: 0,
        left: 0,
        right: 0,
        work: 0,
        lengths: 0,
        bytes: 0,
    };
}

// The first store that is too short, if one is.
#[tactic(auto, unfolding(crate::specs::Sizes::short_store))]
pub fn short_store(have: Sizes, want: Sizes) -> Option<Store>
    ensures { number_named result ≡ short_store have want }
{
    if have.cells < want.cells {
        return Some(Store::Cells);
    }
    if have.handles < want.handles {
        return Some(Store::Handles);
    }
    if have.left < want.left {
        return Some(Store::Left);
    }
    if have.right < want.right {
        return Some(Store::Right);
    }
    if have.work < want.work {
        return Some(Store::Work);
    }
    if have.lengths < want.lengths {
        return Some(Store::Lengths);
    }
    if have.bytes < want.bytes {
        return Some(Store::Bytes);
    }
    None
}

// The lengths of the stores of n keys in buckets of b rows, beside so many row bytes.
fn store_sizes(n: usize, b: usize, bytes: usize) -> Sizes
    requires { (1 ≤ b) × (b ≤ 256) × (n ≤ 32768) }
    ensures { result ≡ store_sizes n b bytes }
{
    Sizes {
        cells: call_cells(n, b),
        handles: handle_cells(n),
        left: n,
        right: n,
        work: call_work(n),
        lengths: n,
        bytes,
    }
}

// The named lengths of the full build of n keys in buckets of b rows, which is lent no row bytes.
pub fn full_sizes(n: usize, b: usize) -> Sizes
    requires { (1 ≤ b) × (b ≤ 256) × (n ≤ 32768) }
    ensures { result ≡ full_sizes n b }
{
    store_sizes(n, b, 0)
}

// What a call ask reads.
pub fn call_sizes(n: usize, b: usize) -> Sizes
    requires { (1 ≤ b) × (b ≤ 256) × (n ≤ 32768) }
    ensures { result ≡ call_sizes n b }
{
    Sizes {
        cells: call_cells(n, b),
        bytes: n,
        ..Sizes::NONE
    }
}

// What a neighbour ask reads: no store that a call ask does.
pub fn neighbour_sizes(n: usize) -> Sizes
    requires { n ≤ 32768 }
    ensures { result ≡ neighbour_sizes n }
{
    let handles = handle_cells(n);
    Sizes {
        handles,
        left: n,
        right: n,
        lengths: n,
        ..Sizes::NONE
    }
}

// Refusal 1 for more than 32,768 keys, then 2 for a b outside 2 to 256: before all others, wherever a table of n keys
// and a bucket size are judged.
#[tactic(auto, unfolding(crate::specs::Limits::limited))]
pub fn limits(n: usize, b: usize) -> Result<(), Refusal>
    ensures { said_by_judge result ≡ limited refused n b taken }
{
    if n > 32768 {
        return Err(Refusal::TooManyKeys);
    }
    if b < 2 || b > 256 {
        return Err(Refusal::BucketSize);
    }
    Ok(())
}

// The named length of every store that the full build, the call ask or the neighbour ask is lent, for n keys in buckets
// of b rows, or refusal 1 or 2.
#[tactic(auto, using(crate::proofs::Lending::as_named))]
pub fn named_lengths(n: usize, b: usize) -> Result<Sizes, Refusal>
    ensures { said_by_lend result ≡ named_lengths n b }
{
    limits(n, b)?;
    Ok(store_sizes(n, b, n))
}

// Refusals 3 and 4 of a build, once 1 and 2 do not apply.
#[tactic(auto, using(crate::proofs::Judging::as_judged))]
pub fn judge(keys: &[u64], have: Sizes, want: Sizes) -> Result<(), Refusal>
    ensures { said_by_judge result ≡ fall_or_short keys.now have want }
{
    if let Some(row) = first_fall(keys) {
        return Err(Refusal::Falls(row));
    }
    if let Some(store) = short_store(have, want) {
        return Err(Refusal::Short(store.number()));
    }
    Ok(())
}
