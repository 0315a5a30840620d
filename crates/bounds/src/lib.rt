// The bounds of the splits: left, right and the root, by jumping, in one pass each way.
//
// Every function is proved and the crate assumes nothing. Each `requires` is a table and room that the builds have tested.
#![tactic(auto)]

ghost use Rattle.std.specs.Prelude.{◌≡◌, ◌+◌, ◌-◌, ◌≤◌, ◌<◌, length};
ghost use Rattle.tables.specs.Tables.{Table};
ghost use Rattle.tables.specs.Inner.{listing};
ghost use Rattle.splits.specs.Splits.{root, left_entry, right_entry, left_store, right_store};
ghost use Rattle.splits.specs.Inner.{Rising, Holds, Roomy, goes_on, Wrote};

use splits::split::len_at;
use tables::delimiters::Delimiters;

// Whether row j, beside a later split whose string has l bits, is a split with l bits or more and so lies within the
// rows of that one. A row before another is a split unless it is row 0.
fn goes_on_left(rows: &Delimiters, j: usize, l: u32) -> bool
    requires { j < length (listing rows.now) }
    ensures { result ≡ goes_on (listing rows.now) j l }
{
    j != 0 && l <= len_at(rows, j)
}

// The same of row j beside an earlier split. A row after another is a split unless it is beyond the last.
fn goes_on_right(rows: &Delimiters, j: usize, l: u32) -> bool
    requires { 0 < j }
    ensures { result ≡ goes_on (listing rows.now) j l }
{
    j < rows.count && l <= len_at(rows, j)
}

// The first row of split m, by the first rows of the splits before it.
fn jump_left(rows: &Delimiters, left: &[u16], m: usize) -> usize
    requires { Rising (listing rows.now) m × Holds (left_entry (listing rows.now)) 1 m left.now }
    ensures { (result ≡ left_entry (listing rows.now) m) × (result < m) }
{
    let l = len_at(rows, m);
    let mut j = m - 1;
    // The rows that it visits are read from the store, so no range names them.
    while goes_on_left(rows, j, l) {
        j = usize::from(left[j]);
    }
    j
}

// The row after the last of split m, by those of the splits after it.
fn jump_right(rows: &Delimiters, right: &[u16], m: usize) -> usize
    requires { Rising (listing rows.now) m
        × Holds (right_entry (listing rows.now)) (m + 1) rows.now.count right.now }
    ensures { (result ≡ right_entry (listing rows.now) m) × (result ≤ rows.now.count) }
{
    let l = len_at(rows, m);
    let mut j = m + 1;
    // The rows that it visits are read from the store, so no range names them.
    while goes_on_right(rows, j, l) {
        j = usize::from(right[j]);
    }
    j
}

// The first rows of the splits, from the first split to the last.
fn fill_left(rows: &Delimiters, left: &mut [u16])
    requires { Table (listing rows.now) × (0 < rows.now.count) × (rows.now.count ≤ length left.old) }
    ensures { Wrote 1 rows.now.count (left_entry (listing rows.now))
        left.old left.new }
{
    for m in 1..rows.count {
        let j = jump_left(rows, left, m);
        left[m] = j as u16;
    }
}

// The rows after the last ones, from the last split to the first.
fn fill_right(rows: &Delimiters, right: &mut [u16])
    requires { Table (listing rows.now) × (0 < rows.now.count) × (rows.now.count ≤ length right.old) }
    ensures { Wrote 1 rows.now.count (right_entry (listing rows.now))
        right.old right.new }
{
    for m in (1..rows.count).rev() {
        let j = jump_right(rows, right, m);
        right[m] = j as u16;
    }
}

// The root split, or 0 for fewer than two keys: what entry 0 of `left` holds.
#[tactic(auto, using(splits::proofs::Parents::rooting))]
pub fn root_of(rows: &Delimiters) -> usize
    ensures { (result ≡ root (listing rows.now))
        × (result ≤ length (listing rows.now) - 1) }
{
    if rows.count < 2 {
        return 0;
    }
    let mut r = 1;
    let mut shortest = len_at(rows, 1);
    for m in 2..rows.count {
        let l = len_at(rows, m);
        if l < shortest {
            r = m;
            shortest = l;
        }
    }
    r
}

// Fills `left` and `right`: an entry for each row, and nothing beyond.
#[tactic(auto, using(splits::proofs::Stores::wrote_nothing))]
pub fn build_bounds(rows: &Delimiters, left: &mut [u16], right: &mut [u16])
    requires { Roomy (listing rows.now) left.old right.old }
    ensures left_is { left.new
        ≡ left_store (listing rows.now) left.old }
    ensures right_is { right.new
        ≡ right_store (listing rows.now) right.old }
{
    if rows.count == 0 {
        return;
    }
    fill_left(rows, left);
    fill_right(rows, right);
    let r = root_of(rows);
    left[0] = r as u16;
    right[0] = 0;
}
