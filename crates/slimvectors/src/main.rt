// Writes what the slim build says and leaves, what the slim ask says of single keys, and digests of what it says over
// the stores of a build and over stores that no build left (docs/VECTORS.md).
#![tactic(auto)]

use samples::console::Console;
use samplings::profiles::Slim;
use samplings::{answers, refused, spoiled, told, verdict_lines};
use std::io;

fn print(rt: &impl Print) -> io::Result<()> {
    verdict_lines::print::<Slim>(rt)?;
    refused::print::<Slim>(rt)?;
    told::print::<Slim>(rt)?;
    answers::print::<Slim>(rt)?;
    spoiled::slim_print(rt)
}

fn main() {
    // A program that can't write ends as one that could: what it prints is compared.
    let _ = print(&Console);
}
