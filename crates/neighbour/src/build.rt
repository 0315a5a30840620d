// Building the neighbour index: the bounds and the lengths of the splits, and map 3 on their handles. The function is
// inner: the full build and the slim one judge what they are lent before they call it.
ghost use Rattle.tables.specs.Inner.{listing};
ghost use Rattle.neighbour.specs.Inner.{Storable, StoresBuilt};

use items::Items;
use items::source::Source;
use tables::delimiters::Delimiters;

// The stores over the delimiters; with b = 1 they are those of the table itself. Where map 3 has a jam, the error is the
// size of the largest one.
pub fn build_stores(
    rows: &Delimiters,
    seed3: u64,
    handles: &mut [u16],
    left: &mut [u16],
    right: &mut [u16],
    work: &mut [u16],
    lengths: &mut [u8],
) -> Result<(), usize>
    requires { Storable rows.now.b rows.now.keys.now handles.old left.old right.old work.old lengths.old }
    ensures { StoresBuilt (listing rows.now) seed3 handles.old left.old right.old work.old lengths.old
        result handles.new left.new right.new work.new lengths.new }
{
    bounds::build_bounds(rows, left, right);
    lengths::build_lengths(rows, lengths);
    let source = Source {
        which: Items::Handles,
        rows: *rows,
        left,
        right,
    };
    maps::build::build(&source, seed3, handles, work)
}
