// Asking the neighbour index.
ghost use Rattle.std.specs.Prelude.{◌≡◌};
ghost use Rattle.places.specs.Said.{said_by_neighbour};
ghost use Rattle.neighbour.specs.Ask.{neighbour_says};

use descent::search::Search;
use places::Place;
use refusals::Refusal;
use stores::Sizes;
use tables::delimiters::Delimiters;

// How many keys stand before x. Refusal 1 for more than 32,768 keys; 4 for the first store that is too short, of 2
// handle cells, 3 left, 4 right and 6 lengths; 6 for spoiled bounds or an over-long length at the root.
#[tactic(auto, using(crate::proofs::Asking::as_asked), unfolding(places::specs::Said::said_by_neighbour))]
pub fn neighbour_ask(
    keys: &[u64],
    seed3: u64,
    handles: &[u16],
    left: &[u16],
    right: &[u16],
    lengths: &[u8],
    x: u64,
) -> Result<Place, Refusal>
    ensures { said_by_neighbour result ≡ neighbour_says keys.now handles.now
        left.now right.now lengths.now seed3 x }
{
    let n = keys.len();
    if n > 32768 {
        return Err(Refusal::TooManyKeys);
    }
    let have = Sizes {
        handles: handles.len(),
        left: left.len(),
        right: right.len(),
        lengths: lengths.len(),
        ..Sizes::NONE
    };
    if let Some(store) = stores::short_store(have, stores::neighbour_sizes(n)) {
        return Err(Refusal::Short(store.number()));
    }
    let search = Search {
        rows: Delimiters::new(keys, 1),
        seed: seed3,
        handles,
        lengths,
    };
    places::walk_from(&search, left, right, x)
}
