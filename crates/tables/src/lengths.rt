// The numbers of cells and of work that a table of n keys asks for (document 01, "Refusal numbers and their order").
ghost use Rattle.std.specs.Prelude.{◌≡◌, ◌≤◌};
ghost use Rattle.tables.specs.Lengths.{handle_count, call_cells, handle_cells, call_work};

use crate::delimiter::bucket_count;
use cells::{cell_count, work_count};

// How many splits have a handle: all but the root.
pub fn handle_count(n: usize) -> usize
    ensures { result ≡ handle_count n }
{
    n.saturating_sub(2)
}

// The cells of maps 1 and 2, in one store.
pub fn call_cells(n: usize, b: usize) -> usize
    requires { (1 ≤ b) × (b ≤ 256) × (n ≤ 32768) }
    ensures { result ≡ call_cells n b }
{
    cell_count(n) + cell_count(bucket_count(n, b))
}

// The cells of map 3.
pub fn handle_cells(n: usize) -> usize
    requires { n ≤ 32768 }
    ensures { result ≡ handle_cells n }
{
    cell_count(handle_count(n))
}

// The work of a build, which goes by the map on all keys: enough for its other maps too.
pub fn call_work(n: usize) -> usize
    requires { n ≤ 32768 }
    ensures { result ≡ call_work n }
{
    work_count(n)
}
