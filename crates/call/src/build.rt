// Building the call index: map 1 on the keys, map 2 on the bucket prefixes, in one store. Both functions are inner: the
// full build judges what it is lent before it calls them.
ghost use Rattle.call.specs.Inner.{Buildable, KeysBuilt, PrefixesBuilt};

use items::Items;
use items::source::Source;
use tables::delimiters::Delimiters;

// Map 1, in the cells before C(n). The error is the size of its largest jam.
pub fn build_keys(
    rows: &Delimiters,
    seed1: u64,
    cells: &mut [u16],
    work: &mut [u16],
) -> Result<(), usize>
    requires { Buildable rows.now.keys.now rows.now.b cells.old work.old }
    ensures { KeysBuilt rows.now.keys.now rows.now.b seed1 cells.old work.old result
        cells.new work.new }
{
    let source = Source {
        which: Items::Keys,
        rows: *rows,
        left: &[],
        right: &[],
    };
    maps::build::build(&source, seed1, cells, work)
}

// Map 2, in the part of the store that starts in the middle, at cell C(n). The error is the size of its largest jam.
pub fn build_prefixes(
    rows: &Delimiters,
    seed2: u64,
    cells: &mut [u16],
    work: &mut [u16],
) -> Result<(), usize>
    requires { Buildable rows.now.keys.now rows.now.b cells.old work.old }
    ensures { PrefixesBuilt rows.now.keys.now rows.now.b seed2 cells.old work.old result
        cells.new work.new }
{
    let source = Source {
        which: Items::Prefixes,
        rows: *rows,
        left: &[],
        right: &[],
    };
    let c = cells::cell_count(rows.keys.len());
    maps::build::build(&source, seed2, &mut cells[c..], work)
}
