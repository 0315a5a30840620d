// What a search is lent.
ghost use Rattle.std.specs.Prelude.{◌≤◌, length};
ghost use Rattle.cells.specs.Cells.{cell_count};
ghost use Rattle.tables.specs.Lengths.{handle_count};

use tables::delimiters::Delimiters;

// The delimiters, map 3 with its seed, and the lengths of the splits, in stores that were seen to be long enough.
#[derive(Clone, Copy)]
pub struct Search<'a> {
    pub rows: Delimiters<'a>,
    pub seed: u64,
    pub handles: &'a [u16],
    pub lengths: &'a [u8],
    ghost cells: { cell_count (handle_count rows.count) ≤ length handles.now },
    ghost entries: { rows.count ≤ length lengths.now },
}
