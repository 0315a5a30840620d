// The asks, and what is told of their answers. The stores are as long as the full build of 2,000 keys in buckets of two
// rows asks for.
use crate::profiles::{Found, Loan, Profile};
use outcomes::Outcome;
use places::Place;
use refusals::Refusal;
use samples::answer::digest;
use samples::store;
use samples::store::{Part, first, mixed_bytes, none};
use std::{fmt, io};

// An answer as a number, and what is counted of it: one for a row that was found, or the probes; and one for a row that
// is withdrawn.
#[derive(Clone, Copy)]
struct Answer {
    number: u64,
    count: u64,
    withdrawn: u64,
}

// 2^32 + the refusal's number.
impl From<Refusal> for Answer {
    fn from(refusal: Refusal) -> Answer {
        Answer {
            number: refusal.number().wrapping_add(0x1_0000_0000),
            count: 0,
            withdrawn: 0,
        }
    }
}

// A planned row: the row + 1; a withdrawn one: 65536 more.
impl From<Outcome> for Answer {
    fn from(outcome: Outcome) -> Answer {
        let (number, count, withdrawn) = match outcome {
            Outcome::Planned(row) => ((row as u64).wrapping_add(1), 1, 0),
            Outcome::Withdrawn(row) => ((row as u64).wrapping_add(65537), 1, 1),
            Outcome::Absent => (0, 0, 0),
        };
        Answer {
            number,
            count,
            withdrawn,
        }
    }
}

impl From<Found> for Answer {
    fn from(found: Found) -> Answer {
        found.outcome.into()
    }
}

// before * 65536 + probes * 16 + whether the key stands in the table.
impl From<Place> for Answer {
    fn from(place: Place) -> Answer {
        let count = place.probes as u64;
        let number = (place.before as u64)
            .wrapping_mul(65536)
            .wrapping_add(count.wrapping_mul(16))
            .wrapping_add(u64::from(place.stands));
        Answer {
            number,
            count,
            withdrawn: 0,
        }
    }
}

impl<T: Into<Answer>> From<Result<T, Refusal>> for Answer {
    fn from(told: Result<T, Refusal>) -> Answer {
        match told {
            Ok(found) => found.into(),
            Err(refusal) => refusal.into(),
        }
    }
}

// The sum and the largest of the counts, the withdrawn rows, and the digest of all answers.
#[derive(Clone, Copy)]
pub(crate) struct Tally {
    sum: u64,
    most: u64,
    withdrawn: u64,
    digest: u64,
}

impl Tally {
    fn with(self, answer: Answer) -> Tally {
        Tally {
            sum: self.sum.wrapping_add(answer.count),
            most: self.most.max(answer.count),
            withdrawn: self.withdrawn.wrapping_add(answer.withdrawn),
            digest: digest(self.digest, answer.number),
        }
    }
}

// Asks for each key, the key - 1 and the key + 1 in row order, and at last for 0 and 2^64 - 1.
fn tallied<F: Fn(u64) -> Answer>(keys: &[u64], ask: F) -> Tally
    requires { F.IsAlwaysCallable ask }
{
    let mut tally = Tally {
        sum: 0,
        most: 0,
        withdrawn: 0,
        digest: 1,
    };
    for &key in keys {
        for x in [key, key.wrapping_sub(1), key.wrapping_add(1)] {
            tally = tally.with(ask(x));
        }
    }
    for x in [0, u64::MAX] {
        tally = tally.with(ask(x));
    }
    tally
}

// A part of each store that a build leaves, which is filled anew.
#[derive(Clone, Copy)]
pub(crate) struct Parts {
    cells: Part,
    handles: Part,
    left: Part,
    right: Part,
    lengths: Part,
}

impl Parts {
    pub(crate) fn cells(self, cells: Part) -> Parts {
        Parts { cells, ..self }
    }

    pub(crate) fn handles(self, handles: Part) -> Parts {
        Parts { handles, ..self }
    }

    pub(crate) fn left(self, left: Part) -> Parts {
        Parts { left, ..self }
    }

    pub(crate) fn right(self, right: Part) -> Parts {
        Parts { right, ..self }
    }

    pub(crate) fn lengths(self, lengths: Part) -> Parts {
        Parts { lengths, ..self }
    }
}

// The stores as the build leaves them.
pub(crate) fn untouched() -> Parts {
    let part = none();
    Parts {
        cells: part,
        handles: part,
        left: part,
        right: part,
        lengths: part,
    }
}

// The end of a line: the outcomes with all rows planned, whose digest has the tag, and with some withdrawn.
#[derive(Clone, Copy)]
struct Outcomes {
    tag: &'static str,
    planned: Tally,
    marked: Tally,
}

impl fmt::Display for Outcomes {
    fn fmt<W: fmt::Write>(&self, f: &mut fmt::Formatter<W>) -> fmt::Result {
        let Outcomes {
            tag,
            planned,
            marked,
        } = self;
        write!(
            f,
            " found={} {tag}={:016x} withdrawn={} marked={:016x}",
            planned.sum, planned.digest, marked.withdrawn, marked.digest
        )
    }
}

// The end of a line: the places, with the probes of all asks and the most of one.
#[derive(Clone, Copy)]
pub(crate) struct Places {
    pub(crate) tag: &'static str,
    pub(crate) places: Tally,
}

impl fmt::Display for Places {
    fn fmt<W: fmt::Write>(&self, f: &mut fmt::Formatter<W>) -> fmt::Result {
        let Places { tag, places } = self;
        write!(
            f,
            " probes={} most={} {tag}={:016x}",
            places.sum, places.most, places.digest
        )
    }
}

// The outcomes, and the places.
#[derive(Clone, Copy)]
pub(crate) struct Answers {
    outcomes: Outcomes,
    places: Tally,
}

impl fmt::Display for Answers {
    fn fmt<W: fmt::Write>(&self, f: &mut fmt::Formatter<W>) -> fmt::Result {
        let Answers { outcomes, places } = *self;
        let tag = "neighbour";
        write!(f, "{outcomes}{}", Places { tag, places })
    }
}

fn tallied_outcomes<P: Profile>(loan: &Loan) -> Tally {
    tallied(loan.keys, |x| P::ask(loan, x).into())
}

fn tallied_places<P: Profile>(loan: &Loan) -> Tally {
    tallied(loan.keys, |x| P::place(loan, x).into())
}

// What `tell` makes of the asks in buckets of b rows over the stores that a build in buckets of `built` rows leaves with
// the same seed for all maps, a part of each filled anew, and with all rows planned.
fn over<P: Profile, T, F: FnOnce(&Loan) -> T>(
    keys: &[u64],
    b: usize,
    built: usize,
    seed: u64,
    parts: Parts,
    tell: F,
) -> T
    requires { F.IsAlwaysCallable tell }
{
    let mut cells = [0u16; 3798];
    let mut handles = [0u16; 2526];
    let mut left = [0u16; 2000];
    let mut right = [0u16; 2000];
    let mut work = [0u16; 9058];
    let mut lengths = [0u8; 2000];
    let zeros = [0u8; 2000];
    let seeds = [seed; 3];
    let _ = P::build(
        keys,
        built,
        seeds,
        &mut cells,
        &mut handles,
        &mut left,
        &mut right,
        &mut work,
        &mut lengths,
    );
    store::fill(parts.cells, &mut cells);
    store::fill(parts.handles, &mut handles);
    store::fill(parts.left, &mut left);
    store::fill(parts.right, &mut right);
    store::fill(parts.lengths, &mut lengths);
    tell(&Loan {
        keys,
        bytes: first(keys.len(), &zeros),
        b,
        seeds,
        cells: &cells,
        handles: &handles,
        left: &left,
        right: &right,
        lengths: &lengths,
    })
}

// The places over such stores.
pub(crate) fn placed<P: Profile>(
    keys: &[u64],
    b: usize,
    built: usize,
    seed: u64,
    parts: Parts,
) -> Tally {
    over::<P, Tally, _>(keys, b, built, seed, parts, |loan| {
        tallied_places::<P>(loan)
    })
}

// The outcomes over such stores, with all rows planned and with some withdrawn, and the places.
pub(crate) fn answered<P: Profile>(
    keys: &[u64],
    b: usize,
    built: usize,
    seed: u64,
    parts: Parts,
) -> Answers {
    let mut bytes = [0u8; 2000];
    store::fill(mixed_bytes(2000), &mut bytes);
    let some = first(keys.len(), &bytes);
    over::<P, Answers, _>(keys, b, built, seed, parts, |planned| {
        let marked = Loan {
            bytes: some,
            ..*planned
        };
        Answers {
            outcomes: Outcomes {
                tag: "call",
                planned: tallied_outcomes::<P>(planned),
                marked: tallied_outcomes::<P>(&marked),
            },
            places: tallied_places::<P>(planned),
        }
    })
}

// The asks of the call index over cells that no build left, a part of them filled and the others 0.
fn call_answers(keys: &[u64], b: usize, part: Part) -> Outcomes {
    let mut cells = [0u16; 3798];
    let zeros = [0u8; 2000];
    let mut bytes = [0u8; 2000];
    store::fill(part, &mut cells);
    store::fill(mixed_bytes(2000), &mut bytes);
    let all = first(keys.len(), &zeros);
    let some = first(keys.len(), &bytes);
    Outcomes {
        tag: "digest",
        planned: tallied(
            keys,
            |x| callask::call_ask(keys, all, b, 0, 0, &cells, x).into(),
        ),
        marked: tallied(
            keys,
            |x| callask::call_ask(keys, some, b, 0, 0, &cells, x).into(),
        ),
    }
}

// The end of a line: those asks with all rows planned and with some withdrawn.
pub fn print_call(rt: &impl Print, keys: &[u64], b: usize, part: Part) -> io::Result<()> {
    println!(rt; "{}", call_answers(keys, b, part))
}
