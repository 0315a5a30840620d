// A map that is being built.
ghost use Rattle.std.specs.Prelude.{◌≡◌, ◌≤◌, length};
ghost use Rattle.words.specs.Inner.{Reciprocal};
ghost use Rattle.cells.specs.Cells.{segment, Segment};
ghost use Rattle.items.specs.Inner.{items_in};

use items::source::Source;

// Where its items come from, their mixed seed, the size m of its segments with its reciprocal r, and the number t of its
// items.
#[derive(Clone, Copy)]
pub struct Map<'a> {
    pub source: Source<'a>,
    pub mixed: u64,
    pub m: usize,
    pub r: u64,
    pub t: usize,
    ghost all: { t ≡ length (items_in source) },
    ghost few: { t ≤ 32768 },
    ghost size: { m ≡ segment t },
    ghost fits: { Segment m },
    ghost reciprocal: { Reciprocal m r },
}
