// The entries under C's calling convention, for bench/: every answer is one 64-bit number (bench/entries.h), so that
// the proved library and its unverified twin can be run by one driver.
//
// Every function is proved and the crate assumes nothing. No function has a `requires`: each takes what the entry
// behind it takes. A usize is widened by `as`, since std has no `From` of it.
#![tactic(auto)]

ghost use Rattle.std.specs.Prelude.{◌≡◌};
ghost use Rattle.refusals.specs.Numbers.{number, names, said_by_build};
ghost use Rattle.outcomes.specs.Outcomes.{told_by};
ghost use Rattle.callask.specs.Ask.{call_says};
ghost use Rattle.neighbour.specs.Ask.{neighbour_says};
ghost use Rattle.stores.specs.Stores.{lent, asked, seeds};
ghost use Rattle.full.specs.Build.{FullBuilt};
ghost use Rattle.slimask.specs.Ask.{slim_says};
ghost use Rattle.slim.specs.Build.{SlimBuilt};
ghost use Rattle.bench.specs.Codes.{refused_code, build_code, Coded, outcome_code, call_code, neighbour_code};
ghost use Rattle.bench.specs.Codes.{place_code, beside_code, slim_code};

use outcomes::Outcome;
use places::Place;
use refusals::{Refusal, Unbuilt, Verdict};

fn coded(number: u64, named: u64) -> u64
    ensures { result ≡ refused_code number named }
{
    0x8000_0000_0000_0000 ^ (number << 32) ^ named
}

fn refused(r: Refusal) -> u64
    ensures { result ≡ refused_code (number r) (names r) }
{
    coded(r.number(), r.named())
}

fn verdict(v: Verdict) -> u64
    ensures { result ≡ build_code (said_by_build v) }
{
    match v {
        Ok(()) => 0,
        Err(Unbuilt::Refused(r)) => refused(r),
        Err(Unbuilt::Jammed(jam)) => coded(5, u64::from(jam.map)) ^ ((jam.size as u64) << 40),
    }
}

fn outcome(o: Outcome) -> u64
    ensures { result ≡ outcome_code (told_by o) }
{
    match o {
        Outcome::Planned(row) => row as u64,
        Outcome::Withdrawn(row) => (row as u64) ^ 0x1_0000_0000,
        Outcome::Absent => 0xFFFF_FFFF_FFFF_FFFF,
    }
}

fn placed(p: Place) -> u64
    ensures { result ≡ place_code p.before p.probes p.stands }
{
    (p.before as u64) ^ ((p.probes as u64) << 32) ^ (u64::from(p.stands) << 40)
}

// An outcome beside a place.
fn beside(o: Outcome) -> u64
    ensures { result ≡ beside_code (told_by o) }
{
    match o {
        Outcome::Planned(row) => (row as u64) << 16,
        Outcome::Withdrawn(row) => ((row as u64) << 16) ^ 0x200_0000_0000,
        Outcome::Absent => 0x400_0000_0000,
    }
}

#[unsafe(no_mangle)]
pub extern "C" fn index_call_ask(
    keys: &[u64],
    bytes: &[u8],
    b: usize,
    seed1: u64,
    seed2: u64,
    cells: &[u16],
    x: u64,
) -> u64
    ensures { result ≡ call_code
        (call_says keys.now bytes.now b seed1 seed2 cells.now x) }
{
    match callask::call_ask(keys, bytes, b, seed1, seed2, cells, x) {
        Ok(o) => outcome(o),
        Err(r) => refused(r),
    }
}

#[tactic(auto, unfolding(places::specs::Said::said_by_neighbour))]
#[unsafe(no_mangle)]
pub extern "C" fn index_neighbour_ask(
    keys: &[u64],
    seed3: u64,
    handles: &[u16],
    left: &[u16],
    right: &[u16],
    lengths: &[u8],
    x: u64,
) -> u64
    ensures { result ≡ neighbour_code
        (neighbour_says keys.now
        handles.now left.now right.now lengths.now seed3 x) }
{
    match neighbour::neighbour_ask(keys, seed3, handles, left, right, lengths, x) {
        Ok(p) => placed(p),
        Err(r) => refused(r),
    }
}

#[unsafe(no_mangle)]
pub extern "C" fn index_full_build(
    keys: &[u64],
    b: usize,
    seed1: u64,
    seed2: u64,
    seed3: u64,
    cells: &mut [u16],
    handles: &mut [u16],
    left: &mut [u16],
    right: &mut [u16],
    work: &mut [u16],
    lengths: &mut [u8],
) -> u64
    ensures { Coded (λ said. FullBuilt keys.now b (seeds seed1 seed2 seed3)
        (lent cells.old handles.old left.old right.old work.old
        lengths.old)
        said
        (lent cells.new handles.new left.new right.new work.new
        lengths.new)) result }
{
    verdict(full::full_build(
        keys, b, seed1, seed2, seed3, cells, handles, left, right, work, lengths,
    ))
}

#[unsafe(no_mangle)]
pub extern "C" fn index_slim_ask(
    keys: &[u64],
    bytes: &[u8],
    b: usize,
    seed1: u64,
    seed3: u64,
    offsets: &[u16],
    handles: &[u16],
    left: &[u16],
    right: &[u16],
    lengths: &[u8],
    x: u64,
) -> u64
    ensures { result ≡ slim_code
        (slim_says keys.now bytes.now b seed1 seed3
        (asked offsets.now handles.now left.now right.now
        lengths.now) x) }
{
    match slimask::slim_ask(
        keys, bytes, b, seed1, seed3, offsets, handles, left, right, lengths, x,
    ) {
        Ok(a) => beside(a.outcome) ^ placed(a.place),
        Err(r) => refused(r),
    }
}

#[unsafe(no_mangle)]
pub extern "C" fn index_slim_build(
    keys: &[u64],
    b: usize,
    seed1: u64,
    seed3: u64,
    offsets: &mut [u16],
    handles: &mut [u16],
    left: &mut [u16],
    right: &mut [u16],
    work: &mut [u16],
    lengths: &mut [u8],
) -> u64
    ensures { Coded (λ said. SlimBuilt keys.now b seed1 seed3
        (lent offsets.old handles.old left.old right.old
        work.old lengths.old)
        said
        (lent offsets.new handles.new left.new right.new work.new
        lengths.new)) result }
{
    verdict(slim::slim_build(
        keys, b, seed1, seed3, offsets, handles, left, right, work, lengths,
    ))
}
