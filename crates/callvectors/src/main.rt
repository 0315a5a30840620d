// Writes what the call index says of single keys, planned, withdrawn and absent, and digests of what it says over
// stores that no build left (docs/VECTORS.md).
#![tactic(auto)]

mod unbuilt;

use samples::console::Console;
use samplings::profiles::Full;
use samplings::told;
use std::io;

fn print(rt: &impl Print) -> io::Result<()> {
    told::print::<Full>(rt)?;
    unbuilt::print(rt)
}

fn main() {
    // A program that can't write ends as one that could: what it prints is compared.
    let _ = print(&Console);
}
