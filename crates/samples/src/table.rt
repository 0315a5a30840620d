// The tables: which key stands in which row.
ghost use Rattle.std.specs.Prelude.{◌≡◌, ◌<◌, Some};
ghost use Rattle.samples.specs.Printed.{sample_text};
ghost use Rattle.samples.specs.Tables.{most_keys};

use std::fmt;
use words::hash::mix;

#[derive(Clone, Copy)]
pub enum Sample {
    Sequential,
    Spread,
    Clustered,
    Bits,
}

impl Sample {
    pub const ALL: [Sample; 4] = [
        Sample::Sequential,
        Sample::Spread,
        Sample::Clustered,
        Sample::Bits,
    ];

    // The most keys that a program takes of the sample: those of `Bits` end.
    pub fn most(self) -> u16
        ensures { result ≡ most_keys self }
    {
        match self {
            Sample::Bits => 65,
            _ => u16::MAX,
        }
    }
}

impl fmt::Display for Sample {
    ghost output = { λ s. Some (sample_text s) };

    fn fmt<W: fmt::Write>(&self, f: &mut fmt::Formatter<W>) -> fmt::Result {
        f.write_str(match self {
            Sample::Sequential => "sequential",
            Sample::Spread => "spread",
            Sample::Clustered => "clustered",
            Sample::Bits => "bits",
        })
    }
}

// How the keys stand in the rows: key i in row i, or the first n turned round.
#[derive(Clone, Copy)]
pub enum Order {
    Rising,
    Turned(usize),
}

// Key i is start + floor(i / group) * leap + (i mod group) * step + (mix(i) mod spread).
fn ruled(i: u64, start: u64, group: u64, leap: u64, step: u64, spread: u64) -> u64
    requires { (0 < group) × (0 < spread) }
{
    let low = (i % group).wrapping_mul(step).wrapping_add(mix(i) % spread);
    start
        .wrapping_add((i / group).wrapping_mul(leap))
        .wrapping_add(low)
}

// 0, then every key with a single 1 bit, from the lowest up.
fn single_bit(i: u64) -> u64 {
    match i {
        1..=64 => 1 << (i - 1),
        _ => 0,
    }
}

// Key i of the sample.
pub fn key_at(sample: Sample, i: u64) -> u64 {
    match sample {
        Sample::Sequential => ruled(i, 0x0001_0002_0001_8000, 1, 1, 0, 1),
        Sample::Spread => ruled(i, 0, 1, 0x0002_0000_0000_0000, 0, 0x0002_0000_0000_0000),
        Sample::Clustered => ruled(i, 0x0001_0000_0000_0000, 16, 0x1_0000_0000, 32768, 32768),
        Sample::Bits => single_bit(i),
    }
}

// The number of the key that stands in row i.
fn row_key(order: Order, i: usize) -> usize {
    match order {
        Order::Turned(n) if i < n => n - 1 - i,
        _ => i,
    }
}

// Fills the whole slice with the sample's first keys.
pub fn fill(sample: Sample, order: Order, keys: &mut [u64]) {
    for i in 0..keys.len() {
        keys[i] = key_at(sample, row_key(order, i) as u64);
    }
}
