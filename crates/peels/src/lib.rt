// Peels items that are alone at a cell, as long as there are any. An item gets its turn when it is found alone, and is
// taken out of its cells when the turn comes: then its cells are at hand to be tried. After the counts and xors the
// work holds for each item a mark, 0 while it has no turn and 1 more than the cell that it was found at, so that none
// gets two, and after that the queue of those that have their turns.
//
// Every function is proved and the crate assumes nothing.
#![tactic(auto)]

ghost use Rattle.std.specs.Prelude.{◌+◌, ◌*◌, ◌<◌, ◌≤◌, length};
ghost use Rattle.jams.specs.Inner.Work.{AllSeen, Tryable, CellTried};
ghost use Rattle.counts.specs.Inner.{AtTurn};
ghost use Rattle.peels.specs.Inner.{Queued};

use counts::map::Map;

// Gives the one item that is left at cell c its turn, where there is one that has none yet. The answer is how many have
// theirs.
fn try_cell(work: &mut [u16], cap: usize, t: usize, n: usize, c: usize) -> usize
    requires { Tryable cap t work.old n c }
    ensures { CellTried cap t c work.old n work.new result }
{
    if work[c] != 1 {
        return n;
    }
    let x = cap + c;
    let i = work[x];
    let y = cap + cap + usize::from(i);
    if work[y] != 0 {
        return n;
    }
    let z = cap + cap + t + n;
    work[y] = c as u16 + 1;
    work[z] = i;
    n + 1
}

// Counts all items, and tries each cell once. The answer is how many items have their turn.
fn scan(map: &Map, work: &mut [u16]) -> usize
    requires { 6 * map.now.m + 2 * map.now.t ≤ length work.old }
    ensures { Queued map.now work.old work.new 0 result }
{
    let m = map.m;
    let t = map.t;
    cells::clear(work, 6 * m + t, 0);
    counts::count_all(map, work);
    let mut n = 0;
    for c in 0..3 * m {
        n = try_cell(work, 3 * m, t, n, c);
    }
    n
}

// Takes out the item of turn q, and tries its three cells. The answer is how many items have their turn.
fn take_turn(map: &Map, work: &mut [u16], q: usize, n: usize) -> usize
    requires { AtTurn map.now work.old q n × AllSeen (3 * map.now.m) work.old × (q < n) }
    ensures { Queued map.now work.old work.new (q + 1) result }
{
    let m = map.m;
    let t = map.t;
    let cap = 3 * m;
    let x = cap + cap + t + q;
    let i = work[x];
    let at = map.cells_at(usize::from(i));
    counts::take_item(work, cap, at, i);
    let n1 = try_cell(work, cap, t, n, at.first);
    let n2 = try_cell(work, cap, t, n1, at.second);
    try_cell(work, cap, t, n2, at.third)
}

// Peels as many items as can be: takes the turns in order, those given on the way too. The answer is how many are
// peeled.
pub fn peel_all(map: &Map, work: &mut [u16]) -> usize
    requires { 6 * map.now.m + 2 * map.now.t ≤ length work.old }
    ensures { Queued map.now work.old work.new result result }
{
    let mut n = scan(map, work);
    let mut q = 0;
    // A range fixes its end, and each turn may give more turns.
    while q < n {
        n = take_turn(map, work, q, n);
        q += 1;
    }
    n
}
