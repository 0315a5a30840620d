// One split: its length, its parent's length, and its handle, the item that map 3 knows it by.
ghost use Rattle.std.specs.Prelude.{◌≡◌, ◌<◌};
ghost use Rattle.tables.specs.Inner.{listing};
ghost use Rattle.splits.specs.Splits.{len, root, parent_len, handle_item, split_beside};
ghost use Rattle.splits.specs.Inner.{SplitOf, Bounded};

use tables::delimiters::Delimiters;
use words::fattest::fattest;
use words::prefix::{prefix_item, shared_bits};

// How many leading bits rows m - 1 and m share.
pub fn len_at(rows: &Delimiters, m: usize) -> u32
    requires { SplitOf (listing rows.now) m }
    ensures { result ≡ len (listing rows.now) m }
{
    shared_bits(rows.at(m - 1), rows.at(m))
}

// The split that item i of map 3 stands for.
pub fn handle_split(root: usize, i: usize) -> usize
    requires { i < 65536 }
    ensures { result ≡ split_beside root i }
{
    if i + 1 < root { i + 1 } else { i + 2 }
}

// The parent's length of split m, read from the stores: the larger of the lengths at its first row and at the row after
// its last, of which row 0 and a row beyond the table have none.
pub fn parent_len(rows: &Delimiters, left: &[u16], right: &[u16], m: usize) -> u32
    requires { Bounded (listing rows.now) left.now right.now m }
    ensures { result ≡ parent_len (listing rows.now) m }
{
    let first = usize::from(left[m]);
    let end = usize::from(right[m]);
    let of_first = if first == 0 { 0 } else { len_at(rows, first) };
    let of_end = if end < rows.count {
        len_at(rows, end)
    } else {
        0
    };
    of_first.max(of_end)
}

// The handle of split m, a split other than the root, read from the stores.
pub fn handle_item(rows: &Delimiters, left: &[u16], right: &[u16], m: usize) -> u64
    requires { Bounded (listing rows.now) left.now right.now m × (m ≡ root (listing rows.now) → ⊥) }
    ensures { result ≡ handle_item (listing rows.now) m }
{
    let l = len_at(rows, m);
    let q = parent_len(rows, left, right, m);
    let f = fattest(u64::from(q), u64::from(l)) as u32;
    prefix_item(rows.at(m), f)
}
