// Writes digests of what the neighbour index says over spoiled stores (docs/VECTORS.md).
#![tactic(auto)]

use samples::console::Console;
use std::io;

fn print(rt: &impl Print) -> io::Result<()> {
    samplings::spoiled::print(rt)
}

fn main() {
    // A program that can't write ends as one that could: what it prints is compared.
    let _ = print(&Console);
}
