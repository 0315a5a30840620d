// The cells of a static map (document 01, "Static maps"): how many there are for t items, the three that an item
// touches, and the value that they give it.
//
// Every function is proved and the crate assumes nothing. Each `requires` is a size that the callers have tested, or
// its reciprocal.
#![tactic(auto)]

ghost use Rattle.std.specs.Prelude.{◌≡◌, ◌*◌, ◌≤◌, ◌<◌, ◌++◌, length, replicate, drop};
ghost use Rattle.words.specs.Inner.{Reciprocal};
ghost use Rattle.cells.specs.Cells.{segment, cell_count, work_count, cell_of, Segment, value_at, map_value};

use words::remainder::{reciprocal, remainder, small_remainder};

// M, the cells of one of the three segments of a map of t items: 42 * t / 100 + 3. With the 3 under the division an
// ask keeps one number, and not M and M - 3.
pub fn segment_size(t: usize) -> usize
    requires { t ≤ 32768 }
    ensures { (result ≡ segment t) × Segment result }
{
    (42 * t + 300) / 100
}

// C(t), all the cells of a map of t items.
pub fn cell_count(t: usize) -> usize
    requires { t ≤ 32768 }
    ensures { (result ≡ cell_count t) × (result ≤ 41295) }
{
    3 * segment_size(t)
}

// The numbers of work that building a map of t items takes.
pub fn work_count(t: usize) -> usize
    requires { t ≤ 32768 }
    ensures { result ≡ work_count t }
{
    2 * cell_count(t) + 2 * t
}

// The cell that the hash h touches in segment j, of m cells each, from the reciprocal r of m: a map has one, and
// needs no division for each of its items. m and r stay two numbers here: the value that holds both, with their facts, is
// `counts::map::Map`, in a crate above.
#[tactic(auto, using(crate::proofs::Values::cell_below, crate::proofs::Values::first_cell), unfolding(crate::specs::Cells::cell_of))]
pub fn cell_from(h: u64, m: usize, r: u64, j: usize) -> usize
    requires { Segment m × Reciprocal m r × (j < 3) }
    ensures { (result ≡ cell_of m j h) × (result < 3 * m) }
{
    let n = m as u64;
    if j == 0 {
        return remainder(h, n, r) as usize;
    }
    j * m + small_remainder(h >> (21 * j), n, r) as usize
}

// The cell that the hash h touches in segment j, of m cells each.
pub fn cell_of(h: u64, m: usize, j: usize) -> usize
    requires { Segment m × (j < 3) }
    ensures { (result ≡ cell_of m j h) × (result < 3 * m) }
{
    cell_from(h, m, reciprocal(m as u64), j)
}

// The value of the hash h, the xor of its three cells, from the reciprocal r of m.
#[tactic(auto, unfolding(crate::specs::Cells::value_at))]
pub fn value_from(cells: &[u16], m: usize, r: u64, h: u64) -> u16
    requires { Segment m × Reciprocal m r × (3 * m ≤ length cells.now) }
    ensures { result ≡ value_at m cells.now h }
{
    let a = cell_from(h, m, r, 0);
    let b = cell_from(h, m, r, 1);
    let c = cell_from(h, m, r, 2);
    cells[a] ^ cells[b] ^ cells[c]
}

// The value of the hash h: the xor of its three cells.
pub fn value_of(cells: &[u16], m: usize, h: u64) -> u16
    requires { Segment m × (3 * m ≤ length cells.now) }
    ensures { result ≡ value_at m cells.now h }
{
    value_from(cells, m, reciprocal(m as u64), h)
}

// What a map of t items says of any item. The cells may be a part that begins in the middle of a store.
pub fn look_up(cells: &[u16], t: usize, seed: u64, item: u64) -> u16
    requires { (t ≤ 32768) × (cell_count t ≤ length cells.now) }
    ensures { result ≡ map_value cells.now t seed item }
{
    value_of(cells, segment_size(t), words::hash::item_hash(item, seed))
}

// The first m entries become zero, and the rest stays: what a named length is left with. `fill` would ask callers that a
// clone can't fail, which is no part of `Copy`.
#[tactic(auto, using(crate::proofs::Sweeping::replicate_more))]
pub fn clear<T: Copy>(s: &mut [T], m: usize, zero: T)
    requires { m ≤ length s.old }
    ensures { s.new ≡ replicate m zero ++ drop m s.old }
{
    for i in 0..m {
        s[i] = zero;
    }
}
