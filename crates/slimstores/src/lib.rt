// The named lengths of the slim profile's stores (request One, with Six and Eight): a map of offsets over all n keys,
// and a neighbour index over the last keys of the k buckets only.
//
// Every function is proved and the crate assumes nothing. `slim_lengths` takes whatever it is handed; the others ask
// for a table and a bucket size within their limits.
#![tactic(auto)]

ghost use Rattle.std.specs.Prelude.{◌≡◌, ◌≤◌};
ghost use Rattle.stores.specs.Sizes.{said_by_lend};
ghost use Rattle.slimstores.specs.Sizes.{slim_sizes, slim_build_sizes, slim_ask_sizes, slim_lengths};

use cells::cell_count;
use refusals::Refusal;
use stores::Sizes;
use tables::delimiter::bucket_count;
use tables::lengths::{call_work, handle_cells};

// The stores of n keys in buckets of b rows, beside so much work and so many row bytes.
fn slim_sizes(n: usize, b: usize, work: usize, bytes: usize) -> Sizes
    requires { (1 ≤ b) × (b ≤ 256) × (n ≤ 32768) }
    ensures { result ≡ slim_sizes n b work bytes }
{
    let k = bucket_count(n, b);
    Sizes {
        cells: cell_count(n),
        handles: handle_cells(k),
        left: k,
        right: k,
        work,
        lengths: k,
        bytes,
    }
}

// The build is lent no row bytes. Its work goes by the map on all keys.
pub fn build_sizes(n: usize, b: usize) -> Sizes
    requires { (1 ≤ b) × (b ≤ 256) × (n ≤ 32768) }
    ensures { result ≡ slim_build_sizes n b }
{
    slim_sizes(n, b, call_work(n), 0)
}

// What an ask reads: no work, and a byte for each row of the whole table.
pub fn ask_sizes(n: usize, b: usize) -> Sizes
    requires { (1 ≤ b) × (b ≤ 256) × (n ≤ 32768) }
    ensures { result ≡ slim_ask_sizes n b }
{
    slim_sizes(n, b, 0, n)
}

// The named length of every store that the slim build or its ask is lent, for n keys in buckets of b rows, or refusal 1
// or 2.
#[tactic(auto, using(crate::proofs::Lending::as_named))]
pub fn slim_lengths(n: usize, b: usize) -> Result<Sizes, Refusal>
    ensures { said_by_lend result ≡ slim_lengths n b }
{
    stores::limits(n, b)?;
    Ok(slim_sizes(n, b, call_work(n), n))
}
