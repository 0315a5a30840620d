// The refusals, judged over all stores together: 17 keys in buckets of three rows, in stores of the named lengths or of
// one entry fewer.
use crate::builds::tried;
use crate::profiles::Profile;
use samples::table;
use samples::table::{Order, Sample};
use samples::text::Built;
use std::io;
use stores::Sizes;

// One entry fewer for each store whose bit is set.
fn shortened(named: Sizes, mask: usize) -> Sizes {
    Sizes {
        cells: named.cells.saturating_sub(mask % 2),
        handles: named.handles.saturating_sub(mask / 2 % 2),
        left: named.left.saturating_sub(mask / 4 % 2),
        right: named.right.saturating_sub(mask / 8 % 2),
        work: named.work.saturating_sub(mask / 16 % 2),
        lengths: named.lengths.saturating_sub(mask / 32 % 2),
        bytes: named.bytes,
    }
}

// The named lengths; none where they are refused.
pub(crate) fn named<P: Profile>() -> Sizes {
    P::named_lengths(17, 3).unwrap_or(Sizes::NONE)
}

// The end of a line.
fn print_said<P: Profile>(rt: &impl Print, keys: &[u64], b: usize, mask: usize) -> io::Result<()> {
    let trial = tried::<P>(keys, b, [0; 3], shortened(named::<P>(), mask), 1);
    println!(rt; " said={} stores={:016x}", Built(trial.said), trial.digest)
}

// The table turned round. Each line here, and that of too many keys, has all the faults that are judged later.
fn print_small<P: Profile>(rt: &impl Print) -> io::Result<()> {
    let mut keys = [0u64; 17];
    table::fill(Sample::Spread, Order::Rising, &mut keys);
    for mask in 0..64 {
        print!(rt; "short={mask}")?;
        print_said::<P>(rt, &keys, 3, mask)?;
    }
    table::fill(Sample::Spread, Order::Turned(17), &mut keys);
    for (fault, b) in [("turned", 3), ("bucket=1", 1), ("bucket=257", 257)] {
        print!(rt; "{fault}")?;
        print_said::<P>(rt, &keys, b, 63)?;
    }
    Ok(())
}

fn print_over<P: Profile>(rt: &impl Print) -> io::Result<()> {
    let mut keys = [0u64; 32769];
    table::fill(Sample::Spread, Order::Rising, &mut keys);
    print!(rt; "keys=32769")?;
    print_said::<P>(rt, &keys, 257, 63)
}

pub fn print<P: Profile>(rt: &impl Print) -> io::Result<()> {
    print_small::<P>(rt)?;
    print_over::<P>(rt)
}
