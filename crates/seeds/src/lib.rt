// The first seed that the build takes (document 01, "`rowcheck`", and requests Seven and Five): seeds 0, 1, .. 255, the
// same for all maps, in stores as long as 2,048 keys can want.
//
// Every function is proved and the crate assumes nothing.
#![tactic(auto)]

ghost use Rattle.std.specs.Prelude.{◌≤◌, length};
ghost use Rattle.stores.specs.Stores.{asked};
ghost use Rattle.seeds.specs.Inner.{SeedTried, Chose};

use index::{Unbuilt, Verdict};

// What the build says of the seed, the same for all maps. The arrays are named one by one, as the slices of a build are:
// it lends several of them at once. That there are 2,048 keys at most is one comparison, and no type says it more plainly.
fn try_seed(
    keys: &[u64],
    b: usize,
    seed: u64,
    cells: &mut [u16; 5178],
    handles: &mut [u16; 2589],
    left: &mut [u16; 2048],
    right: &mut [u16; 2048],
    work: &mut [u16; 9274],
    lengths: &mut [u8; 2048],
) -> Verdict
    requires { length keys.now ≤ 2048 }
    ensures { SeedTried keys.now b seed
        (asked cells.new handles.new left.new right.new lengths.new) result }
{
    index::full_build(
        keys, b, seed, seed, seed, cells, handles, left, right, work, lengths,
    )
}

// Tries seeds 0, 1, .. 255. Only a jam goes on to the next: any other refusal is the table's, whatever the seed. Where all
// seeds jam it answers the jam under the last one.
#[tactic(auto, unfolding(crate::specs::Inner::SeedTried, crate::specs::Inner::Chose))]
pub fn first_seed(
    keys: &[u64],
    b: usize,
    cells: &mut [u16; 5178],
    handles: &mut [u16; 2589],
    left: &mut [u16; 2048],
    right: &mut [u16; 2048],
    work: &mut [u16; 9274],
    lengths: &mut [u8; 2048],
) -> Result<u64, Unbuilt>
    requires { length keys.now ≤ 2048 }
    ensures { Chose keys.now b
        (asked cells.new handles.new left.new right.new lengths.new) result }
{
    for seed in 0..255 {
        match try_seed(keys, b, seed, cells, handles, left, right, work, lengths) {
            Ok(()) => return Ok(seed),
            Err(Unbuilt::Jammed(_)) => {}
            Err(refused) => return Err(refused),
        }
    }
    try_seed(keys, b, 255, cells, handles, left, right, work, lengths)?;
    Ok(255)
}
