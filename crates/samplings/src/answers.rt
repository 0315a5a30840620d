// What is answered over the stores of a build.
use crate::asks::{answered, untouched};
use crate::builds::first_taken;
use crate::profiles::Profile;
use samples::store::first;
use samples::table;
use samples::table::{Order, Sample};
use std::io;

fn block<P: Profile>(rt: &impl Print, sample: Sample, n: usize, b: usize) -> io::Result<()> {
    let mut keys = [0u64; 2000];
    table::fill(sample, Order::Rising, &mut keys);
    let rows = first(n, &keys);
    let seed = first_taken::<P>(rows, b);
    let told = answered::<P>(rows, b, b, seed, untouched());
    println!(rt; "table={sample} keys={n} bucket={b} seed={seed}{told}")
}

pub fn print<P: Profile>(rt: &impl Print) -> io::Result<()> {
    for sample in Sample::ALL {
        for n in [0, 1, 2, 3, 5, 17, 64, 65, 256, 257, 2000] {
            if n <= sample.most() {
                for b in [2, 3, 16, 255, 256] {
                    block::<P>(rt, sample, usize::from(n), b)?;
                }
            }
        }
    }
    Ok(())
}
