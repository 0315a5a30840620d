// Writes the first five outputs of SplitMix64 from the state 1234567, one to a line (docs/VECTORS.md).
#![tactic(auto)]

use samples::console::Console;
use std::io;
use words::hash::mix;

fn print(rt: &impl Print) -> io::Result<()> {
    let mut state = 1234567u64;
    for _ in 0..5 {
        state = state.wrapping_add(0x9E37_79B9_7F4A_7C15);
        println!(rt; "{}", mix(state))?;
    }
    Ok(())
}

fn main() {
    // A program that can't write ends as one that could: what it prints is compared.
    let _ = print(&Console);
}
