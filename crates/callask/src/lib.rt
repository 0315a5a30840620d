// Asking the call index (document 01, "Call index", and request Eight): a planned key gets its sorted row, one whose
// run is withdrawn gets it too and is told from the planned ones, and every other key is absent.
//
// Every function is proved and the crate assumes nothing. `call_ask` takes whatever it is handed.
#![tactic(auto)]

ghost use Rattle.std.specs.Prelude.{◌≡◌};
ghost use Rattle.callask.specs.Ask.{said_by_call, call_says, rule_says};
ghost use Rattle.callask.specs.Inner.{Askable};

use outcomes::{Outcome, compared, mark};
use refusals::Refusal;
use stores::Sizes;

// The row in which the rule finds x, for stores and tables of any content. No row byte is asked for that.
#[tactic(auto, unfolding(crate::specs::Ask::rule_says, crate::specs::Ask::rule_row))]
fn row_of(keys: &[u64], b: usize, seed1: u64, seed2: u64, cells: &[u16], x: u64) -> Option<usize>
    requires { Askable keys.now b cells.now }
    ensures { result ≡ rule_says keys.now b seed1 seed2 cells.now x }
{
    let n = keys.len();
    let value = cells::look_up(cells, n, seed1, x);
    let length = value / 256;
    let offset = value % 256;
    if 63 < length {
        return None;
    }
    let k = tables::delimiter::bucket_count(n, b);
    let c = cells::cell_count(n);
    let prefix = words::prefix::prefix_item(x, u32::from(length));
    let bucket = cells::look_up(&cells[c..], k, seed2, prefix);
    compared(keys, usize::from(bucket) * b + usize::from(offset), x)
}

// What the call index says of x, with a byte for each row of the table: zero is planned, anything else withdrawn. It
// refuses with 1, 2, or 4 for the first store that is too short, of 1 call cells and 7 row bytes. Nothing is changed.
#[tactic(auto, using(crate::proofs::Asking::as_asked))]
pub fn call_ask(
    keys: &[u64],
    bytes: &[u8],
    b: usize,
    seed1: u64,
    seed2: u64,
    cells: &[u16],
    x: u64,
) -> Result<Outcome, Refusal>
    ensures { said_by_call result
        ≡ call_says keys.now bytes.now b seed1 seed2 cells.now x }
{
    let n = keys.len();
    stores::limits(n, b)?;
    let have = Sizes {
        cells: cells.len(),
        bytes: bytes.len(),
        ..Sizes::NONE
    };
    if let Some(store) = stores::short_store(have, stores::call_sizes(n, b)) {
        return Err(Refusal::Short(store.number()));
    }
    let at = row_of(keys, b, seed1, seed2, cells, x);
    Ok(mark(bytes, at))
}
