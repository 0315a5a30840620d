// Fills the cells once all items are peeled, the item peeled last first: an item's cell is touched by none that was
// peeled later.
//
// Every function is proved and the crate assumes nothing.
#![tactic(auto)]

ghost use Rattle.std.specs.Prelude.{◌≡◌, ◌*◌, ◌≤◌, ◌<◌, length};
ghost use Rattle.jams.specs.Inner.Work.{Blank};
ghost use Rattle.counts.specs.Inner.{AtTurn};
ghost use Rattle.fills.specs.Inner.{fixed, FilledAll};

use counts::map::Map;

// Gives the item of turn p its value, by a store at its cell.
fn fill_turn(map: &Map, cells: &mut [u16], work: &[u16], p: usize)
    requires { AtTurn map.now work.now map.now.t map.now.t × (3 * map.now.m ≤ length cells.old)
        × (p < map.now.t) }
    ensures { cells.new ≡ fixed map.now work.now cells.old p }
{
    let m = map.m;
    let t = map.t;
    let cap = 3 * m;
    let x = cap + cap + t + p;
    let i = usize::from(work[x]);
    let y = cap + cap + i;
    let c = usize::from(work[y]) - 1;
    let want = map.source.value_at(i);
    let h = counts::hash_at(&map.source, map.mixed, i);
    let value = cells::value_from(cells, m, map.r, h);
    cells[c] ^= want ^ value;
}

// Fills the cells, over cells that are 0.
pub fn fill_all(map: &Map, cells: &mut [u16], work: &[u16])
    requires { AtTurn map.now work.now map.now.t map.now.t × Blank (3 * map.now.m) cells.old }
    ensures { FilledAll map.now cells.old cells.new }
{
    for p in (0..map.t).rev() {
        fill_turn(map, cells, work, p);
    }
}
