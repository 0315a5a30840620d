// What is said of single keys: 17 keys in buckets of three rows, with seed 0 for all maps; but map 3 of the slim
// profile, whose ask takes two seeds, has seed 2. Row 5 is the one that is looked at.
use crate::profiles::{Found, Loan, Profile};
use crate::refused::named;
use refusals::Refusal;
use samples::store::{first, same};
use samples::table::{Order, Sample};
use samples::text::Told;
use samples::{store, table};
use std::{fmt, io};
use stores::Sizes;

// How much of each store and of the row bytes is lent, the byte of row 5 and that of all the other rows. A byte beyond
// the 17 rows is 255.
#[derive(Clone, Copy)]
struct Lent {
    sizes: Sizes,
    byte: u16,
    others: u16,
}

// What an ask says: the outcome, and where its place is told, the delimiters before, the probes, and whether the key is
// a delimiter.
#[derive(Clone, Copy)]
struct Said(Result<Found, Refusal>);

impl fmt::Display for Said {
    fn fmt<W: fmt::Write>(&self, f: &mut fmt::Formatter<W>) -> fmt::Result {
        let told = Told(self.0.map(|found| found.outcome));
        write!(f, "{told}")?;
        match self.0 {
            Ok(Found { place: Some(p), .. }) => {
                write!(f, "@{}.{}.{}", p.before, p.probes, u64::from(p.stands))
            }
            _ => Ok(()),
        }
    }
}

fn asked<P: Profile>(keys: &[u64], b: usize, lent: Lent, x: u64) -> Said {
    let mut cells = [0u16; 45];
    let mut handles = [0u16; 27];
    let mut left = [0u16; 17];
    let mut right = [0u16; 17];
    let mut work = [0u16; 94];
    let mut lengths = [0u8; 17];
    let mut bytes = [255u8; 18];
    let seeds = [0, 0, P::THIRD_SEED];
    let _ = P::build(
        keys,
        b,
        seeds,
        &mut cells,
        &mut handles,
        &mut left,
        &mut right,
        &mut work,
        &mut lengths,
    );
    store::fill(same(0, 17, lent.others), &mut bytes);
    store::fill(same(5, 6, lent.byte), &mut bytes);
    let sizes = lent.sizes;
    let loan = Loan {
        keys,
        bytes: first(sizes.bytes, &bytes),
        b,
        seeds,
        cells: first(sizes.cells, &cells),
        handles: first(sizes.handles, &handles),
        left: first(sizes.left, &left),
        right: first(sizes.right, &right),
        lengths: first(sizes.lengths, &lengths),
    };
    Said(P::ask(&loan, x))
}

fn key(row: u64) -> u64 {
    table::key_at(Sample::Spread, row)
}

// A key that stands nowhere.
fn absent() -> u64 {
    key(5).wrapping_add(1)
}

// What is lent with `more` row bytes beyond the rows, and one entry fewer of each store whose bit is set.
fn short<P: Profile>(mask: usize, more: usize) -> Sizes {
    P::lent(
        Sizes {
            bytes: more.saturating_add(17),
            ..named::<P>()
        },
        mask,
    )
}

fn print_byte<P: Profile>(rt: &impl Print, keys: &[u64], byte: u16, others: u16) -> io::Result<()> {
    let lent = Lent {
        sizes: short::<P>(0, 0),
        byte,
        others,
    };
    let [below, at, above, nowhere] = [key(4), key(5), key(6), absent()].map(|x| asked::<P>(
        keys, 3, lent, x,
    ));
    println!(rt; "byte={byte} others={others} below={below} at={at} above={above} absent={nowhere}")
}

// The end of a line.
fn print_lent<P: Profile>(rt: &impl Print, keys: &[u64], b: usize, sizes: Sizes) -> io::Result<()> {
    let lent = Lent {
        sizes,
        byte: 0,
        others: 255,
    };
    let [planned, nowhere] = [key(5), absent()].map(|x| asked::<P>(keys, b, lent, x));
    println!(rt; " planned={planned} absent={nowhere}")
}

// Each of the last two lines, and that of too many keys, has all the faults that are judged later.
fn print_small<P: Profile>(rt: &impl Print) -> io::Result<()> {
    let mut keys = [0u64; 17];
    table::fill(Sample::Spread, Order::Rising, &mut keys);
    for byte in [0, 1, 2, 127, 128, 255] {
        for others in [0, 255] {
            print_byte::<P>(rt, &keys, byte, others)?;
        }
    }
    for mask in 0..P::MASKS {
        print!(rt; "short={mask}")?;
        print_lent::<P>(rt, &keys, 3, short::<P>(mask, 0))?;
    }
    print!(rt; "long")?;
    print_lent::<P>(rt, &keys, 3, short::<P>(0, 1))?;
    for b in [1, 257] {
        print!(rt; "bucket={b}")?;
        print_lent::<P>(rt, &keys, b, short::<P>(63, 0))?;
    }
    Ok(())
}

fn print_over<P: Profile>(rt: &impl Print) -> io::Result<()> {
    let mut keys = [0u64; 32769];
    table::fill(Sample::Spread, Order::Rising, &mut keys);
    print!(rt; "keys=32769")?;
    print_lent::<P>(rt, &keys, 257, short::<P>(63, 0))
}

pub fn print<P: Profile>(rt: &impl Print) -> io::Result<()> {
    print_small::<P>(rt)?;
    print_over::<P>(rt)
}
