// Asking the slim profile (request One, with Six and Eight): a walk over the last key of each bucket counts the bucket
// of x, one map on all keys gives its offset there, and the table's key in that row decides.
//
// Every function is proved and the crate assumes nothing. `slim_ask` takes whatever it is handed.
#![tactic(auto)]

ghost use Rattle.std.specs.Prelude.{◌≡◌};
ghost use Rattle.stores.specs.Stores.{asked};
ghost use Rattle.slimask.specs.Ask.{said_by_slim, bucket_says, slim_says};
ghost use Rattle.slimask.specs.Inner.{Askable};

use descent::search::Search;
use outcomes::{Outcome, compared, mark};
use places::Place;
use refusals::Refusal;
use stores::Sizes;
use tables::delimiters::Delimiters;

// What is answered of a key, and its place among the delimiters: those before it, the probes made, and whether it is
// one of them.
#[derive(Clone, Copy)]
pub struct SlimAnswer {
    pub outcome: Outcome,
    pub place: Place,
}

// The row of x in its bucket. The map says something of every key, and its value is the offset as it stands: whether
// the row is x's the table decides.
#[tactic(auto, using(tables::proofs::Delimiting::length_delimiters), unfolding(crate::specs::Ask::bucket_says))]
fn row_in(rows: &Delimiters, seed1: u64, offsets: &[u16], x: u64, bucket: usize) -> Option<usize>
    requires { Askable rows.now.keys.now rows.now.b offsets.now }
    ensures { result ≡ bucket_says rows.now.keys.now rows.now.b seed1 offsets.now x bucket }
{
    if bucket < rows.count {
        let offset = usize::from(cells::look_up(offsets, rows.keys.len(), seed1, x));
        return compared(rows.keys, bucket * rows.b + offset, x);
    }
    None
}

// What the slim profile says of x, with a byte for each row of the whole table: zero is planned, anything else
// withdrawn. It refuses with 1, 2, 4 for the first store that is too short, of 1 offset cells, 2 handle cells, 3 left,
// 4 right, 6 lengths and 7 row bytes, and 6 for spoiled bounds or an over-long length at the root. Nothing is changed.
#[tactic(auto, using(crate::proofs::Asking::as_asked))]
pub fn slim_ask(
    keys: &[u64],
    bytes: &[u8],
    b: usize,
    seed1: u64,
    seed3: u64,
    offsets: &[u16],
    handles: &[u16],
    left: &[u16],
    right: &[u16],
    lengths: &[u8],
    x: u64,
) -> Result<SlimAnswer, Refusal>
    ensures { said_by_slim result ≡ slim_says keys.now bytes.now b seed1 seed3
        (asked offsets.now handles.now left.now right.now
        lengths.now) x }
{
    let n = keys.len();
    stores::limits(n, b)?;
    let have = Sizes {
        cells: offsets.len(),
        handles: handles.len(),
        left: left.len(),
        right: right.len(),
        lengths: lengths.len(),
        bytes: bytes.len(),
        ..Sizes::NONE
    };
    if let Some(store) = stores::short_store(have, slimstores::ask_sizes(n, b)) {
        return Err(Refusal::Short(store.number()));
    }
    let search = Search {
        rows: Delimiters::new(keys, b),
        seed: seed3,
        handles,
        lengths,
    };
    let place = places::walk_from(&search, left, right, x)?;
    let at = row_in(&search.rows, seed1, offsets, x, place.before);
    Ok(SlimAnswer {
        outcome: mark(bytes, at),
        place,
    })
}
