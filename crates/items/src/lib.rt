// Which item and which value stand at number i of each map (document 01, "Call index" and "Neighbour index", and
// request One). They are computed from the table and the bounds of its splits, and not stored.
//
// Every function is proved and the crate assumes nothing. A `Source` holds what the builds have tested, and the bounds
// that they have written.
#![tactic(auto)]

ghost use Rattle.std.specs.Prelude.{◌≡◌, ◌+◌, ◌*◌, ◌/◌, ◌%◌, ◌≤◌, ◌<◌, length, get_or};
ghost use Rattle.tables.specs.Delimiters.{buckets};
ghost use Rattle.tables.specs.Inner.{listing};
ghost use Rattle.tables.specs.Buckets.{bucket_length, bucket_prefix};
ghost use Rattle.splits.specs.Splits.{split_beside, handle_item, handle_split};
ghost use Rattle.items.specs.Items.{Sorted, Bounds};
ghost use Rattle.items.specs.Inner.{items_in, values_in};

pub mod source;

use source::Source;
use splits::split::{handle_item, handle_split};
use tables::bucket::bucket_length;
use tables::delimiter::bucket_count;
use tables::lengths::handle_count;
use words::prefix::prefix_item;

// The map whose items are meant. It stays an enum: three closures for each map, to count, find and value its items, are
// no plainer than one `match`.
#[derive(Clone, Copy)]
pub enum Items {
    // Map 1, on the keys.
    Keys,
    // Map 2, on the prefixes of the buckets.
    Prefixes,
    // Map 3, on the handles of the splits of the last keys of buckets; of the whole table, with buckets of one row.
    Handles,
    // Map 1 of the slim profile, on the keys too: its whole value is the offset.
    Offsets,
}

// The offset of row r, in either profile: the row minus its bucket's first row.
fn offset_of(b: usize, r: usize) -> u32
    requires { (1 ≤ b) × (b ≤ 256) }
    ensures { (result ≡ r % b) × (result < 256) }
{
    (r % b) as u32
}

// The value of row r in map 1: 256 times the length of its bucket, and its offset there.
fn key_value(keys: &[u64], b: usize, r: usize) -> u16
    requires { Sorted b keys.now × (r < length keys.now) }
    ensures { result ≡ 256 * bucket_length b keys.now (r / b) + r % b }
{
    let bits = bucket_length(keys, b, r / b);
    let offset = offset_of(b, r);
    (256 * bits + offset) as u16
}

// The prefix of bucket i, an item of map 2.
fn prefix_at(keys: &[u64], b: usize, i: usize) -> u64
    requires { Sorted b keys.now × (i < buckets (length keys.now) b) }
    ensures { result ≡ bucket_prefix b keys.now i }
{
    let first = i * b;
    prefix_item(keys[first], bucket_length(keys, b, i))
}

// The split that item i of map 3 stands for. Entry 0 of `left` is the root.
fn split_at(left: &[u16], i: usize) -> usize
    requires { (0 < length left.now) × (i < 32768) }
    ensures { result ≡ split_beside (get_or left.now 0 0) i }
{
    handle_split(usize::from(left[0]), i)
}

impl Source<'_> {
    // The handle of the split that item i of map 3 stands for.
    fn handle_at(&self, i: usize) -> u64
        requires { Bounds self.now.rows.b self.now.rows.keys.now self.now.left.now self.now.right.now
            × (i + 2 < length (listing self.now.rows)) }
        ensures { result ≡ handle_item (listing self.now.rows) (handle_split (listing self.now.rows) i) }
    {
        handle_item(&self.rows, self.left, self.right, split_at(self.left, i))
    }

    // How many items the map has.
    pub fn count(&self) -> usize
        ensures { (result ≡ length (items_in self.now)) × (result ≤ 32768) }
    {
        match self.which {
            Items::Keys | Items::Offsets => self.rows.keys.len(),
            Items::Prefixes => bucket_count(self.rows.keys.len(), self.rows.b),
            Items::Handles => handle_count(self.rows.count),
        }
    }

    // Item i.
    pub fn item_at(&self, i: usize) -> u64
        requires { i < length (items_in self.now) }
        ensures { result ≡ get_or (items_in self.now) i 0 }
    {
        match self.which {
            Items::Keys | Items::Offsets => self.rows.keys[i],
            Items::Prefixes => prefix_at(self.rows.keys, self.rows.b, i),
            Items::Handles => self.handle_at(i),
        }
    }

    // The value of item i.
    pub fn value_at(&self, i: usize) -> u16
        requires { i < length (items_in self.now) }
        ensures { result ≡ get_or (values_in self.now) i 0 }
    {
        match self.which {
            Items::Keys => key_value(self.rows.keys, self.rows.b, i),
            Items::Prefixes => i as u16,
            Items::Handles => split_at(self.left, i) as u16,
            Items::Offsets => offset_of(self.rows.b, i) as u16,
        }
    }
}
