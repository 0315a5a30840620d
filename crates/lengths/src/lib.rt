// The store of lengths (request Six): len of each split in a byte, so that an ask need not read two rows for it.
//
// Every function is proved and the crate assumes nothing. Each `requires` is a table and room that the builds have
// tested.
#![tactic(auto)]

ghost use Rattle.std.specs.Prelude.{◌≡◌, ◌≤◌, length};
ghost use Rattle.tables.specs.Inner.{listing};
ghost use Rattle.splits.specs.Splits.{length_store};

use splits::split::len_at;
use tables::delimiters::Delimiters;

// Fills `lengths`: an entry for each row, and nothing beyond. Row 0 is no split, and its entry is 0.
#[tactic(auto, using(splits::proofs::Stores::writing, splits::proofs::Parents::length_split))]
pub fn build_lengths(rows: &Delimiters, lengths: &mut [u8])
    requires { length (listing rows.now) ≤ length lengths.old }
    ensures { lengths.new ≡ length_store (listing rows.now) lengths.old }
{
    if rows.count == 0 {
        return;
    }
    for m in 1..rows.count {
        // Two keys share 64 bits at most, which fit a byte.
        lengths[m] = len_at(rows, m) as u8;
    }
    lengths[0] = 0;
}
