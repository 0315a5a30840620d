// Which seeds a build takes and refuses, for all maps and for each map alone.
use crate::builds::{built, tried};
use crate::profiles::Profile;
use samples::store::first;
use samples::table;
use samples::table::{Order, Sample};
use samples::text::Built;
use std::io;

// The builds of a seed, and the digest of what they leave.
fn print_seed<P: Profile>(rt: &impl Print, keys: &[u64], b: usize, seed: u64) -> io::Result<()> {
    let mut digest = 1;
    print!(rt; "seed={seed}")?;
    for (name, maps) in P::TRIALS {
        let seeds = maps.map(|map| seed.wrapping_mul(map));
        let trial = tried::<P>(keys, b, seeds, P::LONGER, digest);
        print!(rt; " {name}={}", Built(trial.said))?;
        digest = trial.digest;
    }
    println!(rt; " stores={digest:016x}")
}

fn block<P: Profile>(rt: &impl Print, sample: Sample, n: usize, b: usize) -> io::Result<()> {
    let mut keys = [0u64; 300];
    table::fill(sample, Order::Rising, &mut keys);
    println!(rt; "table={sample} keys={n} bucket={b}")?;
    for seed in 0..16 {
        print_seed::<P>(rt, first(n, &keys), b, seed)?;
    }
    Ok(())
}

// The largest table: what is left in its stores goes into no line. With seed 0 all builds of the line are one.
fn largest<P: Profile>(rt: &impl Print, sample: Sample) -> io::Result<()> {
    let mut keys = [0u64; 32768];
    table::fill(sample, Order::Rising, &mut keys);
    let said = Built(built::<P>(&keys, 256, 0).said);
    print!(rt; "table={sample} keys=32768 bucket=256\nseed=0")?;
    for (name, _) in P::TRIALS {
        print!(rt; " {name}={said}")?;
    }
    println!(rt)
}

pub fn print<P: Profile>(rt: &impl Print) -> io::Result<()> {
    for sample in [Sample::Sequential, Sample::Spread, Sample::Clustered] {
        for n in [0, 1, 2, 3, 4, 5, 8, 13, 21, 34, 55, 300] {
            for b in [2, 3, 16] {
                block::<P>(rt, sample, n, b)?;
            }
        }
    }
    for sample in [Sample::Spread, Sample::Clustered] {
        largest::<P>(rt, sample)?;
    }
    Ok(())
}
