// The walk to x's place, and its answer (document 01, "The walk", 1, 2 and 4), over the delimiters of buckets of b
// rows; with b = 1 they are the table itself. The lengths of the splits, the root's too, are those that the store of
// lengths holds (request Six).
//
// Every function is proved and the crate assumes nothing. Its functions take a search, whose table and stores were seen
// to fit, and beside it the bounds of the splits, which the probes don't read.
#![tactic(auto)]

ghost use Rattle.std.specs.Prelude.{◌≡◌, ◌≤◌, ◌<◌};
ghost use Rattle.tables.specs.Inner.{listing};
ghost use Rattle.splits.specs.Inner.{SplitOf};
ghost use Rattle.walks.specs.Walk.{before, decide};
ghost use Rattle.places.specs.Said.{said_by_neighbour, told};
ghost use Rattle.places.specs.Inner.{Bounded, search_says};

use descent::search::Search;
use refusals::Refusal;
use tables::delimiters::Delimiters;

// Where x stands: the keys before it, the probes made, and whether it is in the table.
#[derive(Clone, Copy)]
pub struct Place {
    pub before: usize,
    pub probes: usize,
    pub stands: bool,
}

// The answer that c keys stand before x, after so many probes.
#[tactic(auto, unfolding(crate::specs::Said::said_by_neighbour, crate::specs::Said::told))]
fn tell(rows: &Delimiters, x: u64, probes: usize, c: usize) -> Place
    ensures { said_by_neighbour (Ok result) ≡ told (listing rows.now) x probes (before c) }
{
    let stands = c < rows.count && rows.at(c) == x;
    Place {
        before: c,
        probes,
        stands,
    }
}

// The end of the walk at split m of length l, whose rows are said to go from `first` up to `end`.
#[tactic(auto, unfolding(crate::specs::Said::said_by_neighbour, crate::specs::Said::told, walks::specs::Walk::decide))]
fn decide(
    rows: &Delimiters,
    x: u64,
    probes: usize,
    first: usize,
    m: usize,
    end: usize,
    l: u32,
) -> Result<Place, Refusal>
    requires { SplitOf (listing rows.now) m × (l < 64) }
    ensures { said_by_neighbour result ≡ told (listing rows.now) x probes
        (decide (listing rows.now) x l first m end) }
{
    if first >= m || m >= end || end > rows.count {
        return Err(Refusal::Spoiled);
    }
    let (low, high) = if (x >> (63 - l)) % 2 == 0 {
        (first, m)
    } else {
        (m, end)
    };
    let c = if x <= rows.at(low) { low } else { high };
    Ok(tell(rows, x, probes, c))
}

// The walk for two keys or more.
fn walk_splits(search: &Search, left: &[u16], right: &[u16], x: u64) -> Result<Place, Refusal>
    requires { Bounded search.now left.now right.now × (2 ≤ search.now.rows.count) }
    ensures { said_by_neighbour result ≡ search_says search.now left.now right.now x }
{
    let rows = &search.rows;
    let root = usize::from(left[0]);
    if root == 0 || root >= rows.count || search.lengths[root] > 63 {
        return Err(Refusal::Spoiled);
    }
    let l = u32::from(search.lengths[root]);
    if descent::agrees(rows, x, root, l) {
        let d = search.descend(x, root, l);
        let node = d.node;
        let first = usize::from(left[node]);
        let end = usize::from(right[node]);
        return decide(rows, x, d.probes, first, node, end, d.lower);
    }
    let c = if x <= rows.at(root) { 0 } else { rows.count };
    Ok(tell(rows, x, 0, c))
}

// The walk over the delimiters.
#[tactic(auto, unfolding(crate::specs::Said::walk_says, walks::specs::Walk::store_walk, walks::specs::Walk::walk))]
pub fn walk_from(search: &Search, left: &[u16], right: &[u16], x: u64) -> Result<Place, Refusal>
    requires { Bounded search.now left.now right.now }
    ensures { said_by_neighbour result ≡ search_says search.now left.now right.now x }
{
    let rows = &search.rows;
    if rows.count < 2 {
        let c = if rows.count == 0 || x <= rows.at(0) {
            0
        } else {
            1
        };
        return Ok(tell(rows, x, 0, c));
    }
    walk_splits(search, left, right, x)
}
