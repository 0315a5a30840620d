// The delimiters of a table: the last key of each bucket, read from the table. With buckets of one row they are the
// table itself, and are read without a division or a product.
//
// n and b stay two numbers: the index has buckets of two rows or more, and here one row will do, so a value with the limits
// of one would not be the other's.
ghost use Rattle.std.specs.Prelude.{◌≡◌, ◌*◌, ◌≤◌, ◌<◌, length};
ghost use Rattle.tables.specs.Tables.{key_at};
ghost use Rattle.tables.specs.Delimiters.{buckets, bucket_end, delimiters, Bucketed};
ghost use Rattle.tables.specs.Inner.{listing};

use crate::delimiters::Delimiters;

// k, how many buckets of b rows there are. `div_ceil` would test the remainder too, and each ask comes here.
#[tactic(auto, using(crate::proofs::Delimiting::buckets_le))]
pub fn bucket_count(n: usize, b: usize) -> usize
    requires { (1 ≤ b) × (b ≤ 256) × (n ≤ 32768) }
    ensures { (result ≡ buckets n b) × (result ≤ n) }
{
    (n + (b - 1)) / b
}

// The row after bucket i's last one.
pub fn bucket_end(n: usize, b: usize, i: usize) -> usize
    requires { (1 ≤ b) × (b ≤ 256) × (n ≤ 32768) × (i < buckets n b) }
    ensures { (result ≡ bucket_end n b i) × (i * b < result) × (result ≤ n) }
{
    (i * b + b).min(n)
}

// How many delimiters there are.
#[tactic(auto, using(crate::proofs::Delimiting::delimiter_read))]
pub fn delimiter_count(keys: &[u64], b: usize) -> usize
    requires { Bucketed b keys.now }
    ensures { (result ≡ length (delimiters b keys.now)) × (result ≤ length keys.now) }
{
    if b == 1 {
        return keys.len();
    }
    bucket_count(keys.len(), b)
}

// Delimiter i, the last key of bucket i.
#[tactic(auto, using(crate::proofs::Delimiting::delimiter_read))]
pub fn delimiter_at(keys: &[u64], b: usize, i: usize) -> u64
    requires { Bucketed b keys.now × (i < length (delimiters b keys.now)) }
    ensures { result ≡ key_at (delimiters b keys.now) i }
{
    if b == 1 {
        return keys[i];
    }
    let end = bucket_end(keys.len(), b, i);
    keys[end - 1]
}

impl<'a> Delimiters<'a> {
    // The delimiters of buckets of b rows.
    pub fn new(keys: &'a [u64], b: usize) -> Delimiters<'a>
        requires { Bucketed b keys.now }
        ensures table { result.keys.now ≡ keys.now }
        ensures size { result.b ≡ b }
    {
        Delimiters {
            keys,
            b,
            count: delimiter_count(keys, b),
        }
    }

    // Delimiter i, the last key of bucket i.
    pub fn at(&self, i: usize) -> u64
        requires { i < length (listing self.now) }
        ensures { result ≡ key_at (listing self.now) i }
    {
        delimiter_at(self.keys, self.b, i)
    }
}
