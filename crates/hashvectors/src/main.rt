// Writes item hashes and their three cells for a spread of items, seeds and map sizes (docs/VECTORS.md).
#![tactic(auto)]

ghost use Rattle.std.specs.Prelude.{◌≤◌};
ghost use Rattle.cells.specs.Cells.{Segment};

use cells::{cell_count, cell_of, segment_size};
use samples::console::Console;
use std::io;
use words::hash::item_hash;

// The hash of an item, and its cells in the three segments.
fn line(rt: &impl Print, item: u64, seed: u64, m: usize) -> io::Result<()>
    requires { Segment m }
{
    let h = item_hash(item, seed);
    let [first, second, third] = [cell_of(h, m, 0), cell_of(h, m, 1), cell_of(h, m, 2)];
    println!(rt; "{h:016x} {first} {second} {third}")
}

fn map(rt: &impl Print, t: usize) -> io::Result<()>
    requires { t ≤ 32768 }
{
    let m = segment_size(t);
    println!(rt; "t={t} m={m} c={}", cell_count(t))?;
    for seed in [0, 1, 255, u64::MAX] {
        for item in [0, 1, 1 << 63, u64::MAX, 0x0001_0002_0001_8004] {
            line(rt, item, seed, m)?;
        }
    }
    Ok(())
}

fn print(rt: &impl Print) -> io::Result<()> {
    for t in [0, 1, 4, 11, 32768] {
        map(rt, t)?;
    }
    Ok(())
}

fn main() {
    // A program that can't write ends as one that could: what it prints is compared.
    let _ = print(&Console);
}
