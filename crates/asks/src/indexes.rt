// Both indexes of a table, as rowcheck asks them.
ghost use Rattle.std.specs.Prelude.{◌≤◌, length};
ghost use Rattle.stores.specs.Stores.{asked, same};
ghost use Rattle.index.specs.Answers.{Answers};

// The table with a byte for each row, and stores over which both indexes answer every key, under one seed.
#[derive(Clone, Copy)]
pub struct Indexes<'a> {
    pub keys: &'a [u64],
    pub bytes: &'a [u8],
    pub b: usize,
    pub seed: u64,
    pub cells: &'a [u16],
    pub handles: &'a [u16],
    pub left: &'a [u16],
    pub right: &'a [u16],
    pub lengths: &'a [u8],
    ghost answers: { Answers keys.now b (same seed) (asked cells.now handles.now left.now right.now lengths.now) },
    ghost marked: { length keys.now ≤ length bytes.now },
}
