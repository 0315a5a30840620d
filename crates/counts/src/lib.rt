// A map that is being built (document 01, "Static maps"), and its items counted: for each cell how many of the items
// touch it, and the xor of their numbers. Where one item is left at a cell, the xor is its number. The first 3 * m
// places of the work hold the counts, and the next 3 * m the xors. The work stays one slice with its `cap`: cut into the
// counts, the xors and the turns it would be three or four arguments, each with a fact on its length.
//
// Every function is proved and the crate assumes nothing.
#![tactic(auto)]

ghost use Rattle.std.specs.Prelude.{◌≡◌, ℕ, ◌+◌, ◌*◌, ◌<◌, ◌≤◌, length, get_or};
ghost use Rattle.jams.specs.Jam.{Touches};
ghost use Rattle.jams.specs.Inner.Work.{PutAt, Put, Blank, Spread};
ghost use Rattle.words.specs.Inner.{mixed_hash};
ghost use Rattle.items.specs.Inner.{items_in};
ghost use Rattle.counts.specs.Inner.{graph, cells_of, CellsAt, ItemsCounted};

pub mod map;

use items::source::Source;
use map::Map;

// The three cells that an item touches, one in each segment.
#[derive(Clone, Copy)]
pub struct Touched {
    pub first: usize,
    pub second: usize,
    pub third: usize,
}

// The hash of item i under a mixed seed. It is too long to be put into the loops that call it.
pub fn hash_at(source: &Source, mixed: u64, i: usize) -> u64
    requires { i < length (items_in source.now) }
    ensures { result ≡ mixed_hash (get_or (items_in source.now) i 0) mixed }
{
    words::hash::mixed_hash(source.item_at(i), mixed)
}

impl Map<'_> {
    // The cells that item i touches.
    pub fn cells_at(&self, i: usize) -> Touched
        requires { i < self.now.t }
        ensures { CellsAt (graph self.now) (3 * self.now.m) i result }
    {
        let h = hash_at(&self.source, self.mixed, i);
        Touched {
            first: cells::cell_from(h, self.m, self.r, 0),
            second: cells::cell_from(h, self.m, self.r, 1),
            third: cells::cell_from(h, self.m, self.r, 2),
        }
    }
}

// Puts item i in at cell c.
fn put_in(work: &mut [u16], cap: usize, c: usize, i: u16)
    requires { (c < cap) × (cap + cap ≤ length work.old) × (get_or work.old c 0 < 65535) }
    ensures { PutAt cap c i work.old work.new }
{
    let x = cap + c;
    work[c] += 1;
    work[x] ^= i;
}

// Takes item i out at cell c: putting it in again gives what was there.
fn take_out(work: &mut [u16], cap: usize, c: usize, i: u16)
    requires { (c < cap) × (cap + cap ≤ length work.old) × (0 < get_or work.old c 0) }
    ensures { PutAt cap c i work.new work.old }
{
    let x = cap + c;
    work[c] -= 1;
    work[x] ^= i;
}

// Puts item i in at each of its cells.
fn put_item(work: &mut [u16], cap: usize, at: Touched, i: u16)
    requires { Spread (cells_of at) cap i × (cap + cap ≤ length work.old)
        × ((c : ℕ) → Touches (cells_of at) i c → get_or work.old c 0 < 65535) }
    ensures { Put (cells_of at) cap i work.old work.new }
{
    put_in(work, cap, at.first, i);
    put_in(work, cap, at.second, i);
    put_in(work, cap, at.third, i);
}

// Takes item i out at each of its cells: putting it in again gives what was there.
pub fn take_item(work: &mut [u16], cap: usize, at: Touched, i: u16)
    requires { Spread (cells_of at) cap i × (cap + cap ≤ length work.old)
        × ((c : ℕ) → Touches (cells_of at) i c → 0 < get_or work.old c 0) }
    ensures { Put (cells_of at) cap i work.new work.old }
{
    take_out(work, cap, at.third, i);
    take_out(work, cap, at.second, i);
    take_out(work, cap, at.first, i);
}

// Puts all items in, over counts and xors that are 0.
pub fn count_all(map: &Map, work: &mut [u16])
    requires { Blank (6 * map.now.m) work.old }
    ensures { ItemsCounted map.now map.now.t work.old work.new }
{
    for i in 0..map.t {
        let at = map.cells_at(i);
        put_item(work, 3 * map.m, at, i as u16);
    }
}
