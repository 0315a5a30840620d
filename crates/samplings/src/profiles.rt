// The full build with the asks of its two indexes, and the slim build with its one ask.
use outcomes::Outcome;
use places::Place;
use refusals::{Refusal, Verdict};
use slimask::SlimAnswer;
use stores::Sizes;

// What an ask tells of a key: its outcome, and its place among the delimiters where the ask tells that too.
#[derive(Clone, Copy)]
pub struct Found {
    pub outcome: Outcome,
    pub place: Option<Place>,
}

// What an ask is lent: the table with a byte for each row, the bucket size, the seeds of the maps, and the stores.
#[derive(Clone, Copy)]
pub struct Loan<'a> {
    pub keys: &'a [u64],
    pub bytes: &'a [u8],
    pub b: usize,
    pub seeds: [u64; 3],
    pub cells: &'a [u16],
    pub handles: &'a [u16],
    pub left: &'a [u16],
    pub right: &'a [u16],
    pub lengths: &'a [u8],
}

pub trait Profile {
    // The lines of a seed: what each is called, and 1 for each of the maps 1, 2 and 3 that is built with the seed, 0 for
    // one that is built with seed 0.
    const TRIALS: &'static [(&'static str, [u64; 3])];

    // Stores of 16 entries more than 300 keys in buckets of two rows ask for.
    const LONGER: Sizes;

    // The seed of map 3 where single keys are asked.
    const THIRD_SEED: u64;

    // How many sets of the stores there are that an ask is lent.
    const MASKS: usize;

    // How long each store has to be for n keys in buckets of b rows.
    fn named_lengths(n: usize, b: usize) -> Result<Sizes, Refusal>;

    // What an ask is lent: one entry fewer for each store whose bit is set in the mask.
    fn lent(all: Sizes, mask: usize) -> Sizes;

    // Builds with the seeds of maps 1, 2 and 3; the slim build has no map 2.
    fn build(
        keys: &[u64],
        b: usize,
        seeds: [u64; 3],
        cells: &mut [u16],
        handles: &mut [u16],
        left: &mut [u16],
        right: &mut [u16],
        work: &mut [u16],
        lengths: &mut [u8],
    ) -> Verdict;

    // What the ask tells of x.
    fn ask(loan: &Loan, x: u64) -> Result<Found, Refusal>;

    // The place of x among the delimiters, or in the table: what the neighbour index tells, or the slim ask.
    fn place(loan: &Loan, x: u64) -> Result<Place, Refusal>;
}

#[derive(Clone, Copy)]
pub struct Full;

#[derive(Clone, Copy)]
pub struct Slim;

impl Profile for Full {
    const TRIALS: &'static [(&'static str, [u64; 3])] = &[
        ("all", [1, 1, 1]),
        ("one", [1, 0, 0]),
        ("two", [0, 1, 0]),
        ("three", [0, 0, 1]),
    ];

    const LONGER: Sizes = Sizes {
        cells: 601,
        handles: 400,
        left: 316,
        right: 316,
        work: 1390,
        lengths: 316,
        bytes: 0,
    };

    const THIRD_SEED: u64 = 0;

    const MASKS: usize = 4;

    fn named_lengths(n: usize, b: usize) -> Result<Sizes, Refusal> {
        stores::named_lengths(n, b)
    }

    fn lent(all: Sizes, mask: usize) -> Sizes {
        Sizes {
            cells: all.cells.saturating_sub(mask % 2),
            bytes: all.bytes.saturating_sub(mask / 2 % 2),
            ..all
        }
    }

    fn build(
        keys: &[u64],
        b: usize,
        seeds: [u64; 3],
        cells: &mut [u16],
        handles: &mut [u16],
        left: &mut [u16],
        right: &mut [u16],
        work: &mut [u16],
        lengths: &mut [u8],
    ) -> Verdict {
        let [one, two, three] = seeds;
        full::full_build(
            keys, b, one, two, three, cells, handles, left, right, work, lengths,
        )
    }

    fn ask(loan: &Loan, x: u64) -> Result<Found, Refusal> {
        let [one, two, _] = loan.seeds;
        let outcome = callask::call_ask(loan.keys, loan.bytes, loan.b, one, two, loan.cells, x)?;
        Ok(Found {
            outcome,
            place: None,
        })
    }

    fn place(loan: &Loan, x: u64) -> Result<Place, Refusal> {
        let [_, _, three] = loan.seeds;
        neighbour::neighbour_ask(
            loan.keys,
            three,
            loan.handles,
            loan.left,
            loan.right,
            loan.lengths,
            x,
        )
    }
}

// What the slim ask tells of x, its place too.
fn slim_told(loan: &Loan, x: u64) -> Result<SlimAnswer, Refusal> {
    let [one, _, three] = loan.seeds;
    slimask::slim_ask(
        loan.keys,
        loan.bytes,
        loan.b,
        one,
        three,
        loan.cells,
        loan.handles,
        loan.left,
        loan.right,
        loan.lengths,
        x,
    )
}

impl Profile for Slim {
    const TRIALS: &'static [(&'static str, [u64; 3])] = &[
        ("both", [1, 1, 1]),
        ("one", [1, 0, 0]),
        ("three", [0, 0, 1]),
    ];

    const LONGER: Sizes = Sizes {
        cells: 403,
        handles: 211,
        left: 166,
        right: 166,
        work: 1390,
        lengths: 166,
        bytes: 0,
    };

    const THIRD_SEED: u64 = 2;

    const MASKS: usize = 64;

    fn named_lengths(n: usize, b: usize) -> Result<Sizes, Refusal> {
        slimstores::slim_lengths(n, b)
    }

    fn lent(all: Sizes, mask: usize) -> Sizes {
        Sizes {
            cells: all.cells.saturating_sub(mask % 2),
            handles: all.handles.saturating_sub(mask / 2 % 2),
            left: all.left.saturating_sub(mask / 4 % 2),
            right: all.right.saturating_sub(mask / 8 % 2),
            lengths: all.lengths.saturating_sub(mask / 16 % 2),
            bytes: all.bytes.saturating_sub(mask / 32 % 2),
            ..all
        }
    }

    fn build(
        keys: &[u64],
        b: usize,
        seeds: [u64; 3],
        cells: &mut [u16],
        handles: &mut [u16],
        left: &mut [u16],
        right: &mut [u16],
        work: &mut [u16],
        lengths: &mut [u8],
    ) -> Verdict {
        let [one, _, three] = seeds;
        slim::slim_build(
            keys, b, one, three, cells, handles, left, right, work, lengths,
        )
    }

    fn ask(loan: &Loan, x: u64) -> Result<Found, Refusal> {
        let told = slim_told(loan, x)?;
        Ok(Found {
            outcome: told.outcome,
            place: Some(told.place),
        })
    }

    fn place(loan: &Loan, x: u64) -> Result<Place, Refusal> {
        let told = slim_told(loan, x)?;
        Ok(told.place)
    }
}
