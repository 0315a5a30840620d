// Buckets: how many leading bits its keys share, and the view of one.
ghost use Rattle.std.specs.Prelude.{◌≡◌, ◌+◌, ◌*◌, ◌≤◌, ◌<◌, length};
ghost use Rattle.tables.specs.Tables.{Table};
ghost use Rattle.tables.specs.Delimiters.{buckets, Bucketed};
ghost use Rattle.tables.specs.Buckets.{bucket_length, has_bucket, bucket_view, view_start};

use crate::delimiter::{bucket_count, bucket_end};
use words::prefix::shared_bits;

// How many leading bits all keys of bucket i share, which in a table are those of its first and last key; 63 for a
// bucket of one key.
#[tactic(auto, using(crate::proofs::Delimiting::bucket_begins, crate::proofs::Bucketing::length_one))]
pub fn bucket_length(keys: &[u64], b: usize, i: usize) -> u32
    requires { Table keys.now × Bucketed b keys.now × (i < buckets (length keys.now) b) }
    ensures { (result ≡ bucket_length b keys.now i) × (result ≤ 63) }
{
    let first = i * b;
    let last = bucket_end(keys.len(), b, i) - 1;
    if first == last {
        return 63;
    }
    shared_bits(keys[first], keys[last])
}

// Whether n and b are within their limits and there is a bucket i.
#[tactic(auto, unfolding(crate::specs::Buckets::has_bucket))]
fn has_bucket(n: usize, b: usize, i: usize) -> bool
    ensures { result ≡ has_bucket n b i }
{
    n <= 32768 && 2 <= b && b <= 256 && i < bucket_count(n, b)
}

// Bucket i's rows as a part of the caller's own table: the same memory, from row i * b on. An empty part if n or b is
// outside its limits or there is no bucket i. The keys need not rise.
#[tactic(auto, using(crate::proofs::Bucketing::view_cut))]
pub fn bucket_view(keys: &[u64], b: usize, i: usize) -> &[u64]
    ensures rows { result.now ≡ bucket_view b keys.now i }
    ensures own { result.ref_ptr
        ≡ (keys.entry.ref_ptr.0, view_start (length keys.now) b i * 8 + keys.entry.ref_ptr.1) }
{
    let n = keys.len();
    if has_bucket(n, b, i) {
        let from = i * b;
        let to = bucket_end(n, b, i);
        return &keys[from..to];
    }
    &keys[0..0]
}
