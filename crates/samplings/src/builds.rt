// What a build says, and what it leaves in its stores.
use crate::profiles::Profile;
use refusals::Verdict;
use samples::answer::digest_all;
use samples::store;
use samples::store::{Entry, first, first_mut, mixed};
use stores::Sizes;

// What a build says, and the digest of what it leaves.
#[derive(Clone, Copy)]
pub struct Trial {
    pub said: Verdict,
    pub digest: u64,
}

// The first n entries of a store, filled so that what the build leaves alone differs from what it clears.
fn lent<T: Entry>(n: usize, store: &mut [T]) -> &mut [T] {
    store::fill(mixed(0, n, 1, 65535), store);
    first_mut(n, store)
}

// Builds in stores of the lengths that are lent, at most those that the full build of 2,000 keys in buckets of two rows
// asks for.
pub fn tried<P: Profile>(
    keys: &[u64],
    b: usize,
    seeds: [u64; 3],
    lend: Sizes,
    before: u64,
) -> Trial {
    let mut cells = [0u16; 3798];
    let mut handles = [0u16; 2526];
    let mut left = [0u16; 2000];
    let mut right = [0u16; 2000];
    let mut work = [0u16; 9058];
    let mut lengths = [0u8; 2000];
    let said = P::build(
        keys,
        b,
        seeds,
        lent(lend.cells, &mut cells),
        lent(lend.handles, &mut handles),
        lent(lend.left, &mut left),
        lent(lend.right, &mut right),
        lent(lend.work, &mut work),
        lent(lend.lengths, &mut lengths),
    );
    let mut digest = before;
    // The cells only after a refusal: which of the fitting fillings is written is free.
    if said.is_err() {
        digest = digest_all(digest, first(lend.cells, &cells));
        digest = digest_all(digest, first(lend.handles, &handles));
    }
    digest = digest_all(digest, first(lend.left, &left));
    digest = digest_all(digest, first(lend.right, &right));
    digest = digest_all(digest, first(lend.work, &work));
    digest = digest_all(digest, first(lend.lengths, &lengths));
    Trial { said, digest }
}

// What a build says, and the root that it leaves in entry 0 of `left`.
#[derive(Clone, Copy)]
pub struct Rooted {
    pub said: Verdict,
    pub root: u16,
}

// The build with the same seed for all maps, in stores as long as the full build of 32,768 keys in buckets of 256 rows
// asks for.
pub fn built<P: Profile>(keys: &[u64], b: usize, seed: u64) -> Rooted {
    let mut cells = [0u16; 41463];
    let mut handles = [0u16; 41292];
    let mut left = [0u16; 32768];
    let mut right = [0u16; 32768];
    let mut work = [0u16; 148126];
    let mut lengths = [0u8; 32768];
    let said = P::build(
        keys,
        b,
        [seed; 3],
        &mut cells,
        &mut handles,
        &mut left,
        &mut right,
        &mut work,
        &mut lengths,
    );
    Rooted {
        said,
        root: left[0],
    }
}

// The first seed of 0 to 255, the same for all maps, that the build takes; 255 also where it takes none.
pub fn first_taken<P: Profile>(keys: &[u64], b: usize) -> u64 {
    (0..255)
        .find(|seed| built::<P>(keys, b, *seed).said.is_ok())
        .unwrap_or(255)
}
