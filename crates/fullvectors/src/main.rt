// Writes what the full build says, what it leaves in its stores, and digests of what both indexes then answer
// (docs/VECTORS.md).
#![tactic(auto)]

use samples::console::Console;
use samplings::profiles::Full;
use samplings::{answers, refused, verdict_lines};
use std::io;

fn print(rt: &impl Print) -> io::Result<()> {
    verdict_lines::print::<Full>(rt)?;
    refused::print::<Full>(rt)?;
    answers::print::<Full>(rt)
}

fn main() {
    // A program that can't write ends as one that could: what it prints is compared.
    let _ = print(&Console);
}
