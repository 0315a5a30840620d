// What is said over stores that no build left: those of a neighbour index of so many keys, and the offset cells of the
// slim profile.
use crate::asks::{Parts, Places, answered, placed, untouched};
use crate::builds::{built, first_taken};
use crate::profiles::{Full, Slim};
use samples::store::{first, mixed, same};
use samples::table;
use samples::table::{Order, Sample};
use std::io;

// What a line is called, and the parts that are filled anew.
type Rule = (&'static str, Parts);

// Handles that no build left.
fn handles(n: u16) -> Parts {
    untouched().handles(mixed(0, 2526, 7, n))
}

// Handles that no build left, and bounds that are spoiled in part.
fn bounds(n: u16) -> [Rule; 6] {
    let rows = usize::from(n);
    let above = n.saturating_add(1);
    let all = mixed(0, rows, 17, above);
    let parts = handles(n);
    [
        ("handles", parts),
        ("root", parts.left(same(0, 1, n))),
        ("left", parts.left(mixed(1, rows, 11, n))),
        ("right", parts.right(mixed(1, rows, 13, above))),
        ("over", parts.right(same(1, rows, above))),
        ("all", parts.left(all).right(all)),
    ]
}

// Handles that no build left, or that all lead to one split, about a third of the way; and lengths that are false in
// part.
fn lengths(n: u16, root: u16) -> [Rule; 5] {
    let rows = usize::from(n);
    let at = usize::from(root);
    let split = n / 3 + 1;
    let third = usize::from(split);
    let parts = handles(n);
    let one = untouched().handles(same(0, 2526, split));
    [
        ("lengths", parts.lengths(mixed(1, rows, 19, 65))),
        ("long", parts.lengths(same(at, at + 1, 64))),
        ("zero-lengths", parts.lengths(same(0, rows, 0))),
        ("false-split", one.lengths(same(third, third + 1, 60))),
        ("long-split", one.lengths(same(third, third + 1, 64))),
    ]
}

// Offset cells that no build left.
fn offsets() -> [Rule; 3] {
    let parts = untouched();
    [
        ("zero", parts.cells(same(0, 3798, 0))),
        ("few", parts.cells(mixed(0, 3798, 7, 3))),
        ("random", parts.cells(mixed(0, 3798, 1000003, 65535))),
    ]
}

// The stores of one bucket, where the last of k splits is the root and so long that keys leave there with no delimiter
// before them; a part of the offset cells is filled anew.
fn past(k: u16) -> [Rule; 2] {
    let last = k.saturating_sub(1);
    let long = same(usize::from(last), usize::from(k), 63);
    let parts = untouched().left(same(0, 1, last)).lengths(long);
    [("past", parts), ("wide", parts.cells(same(0, 3798, 256)))]
}

// The stores of a table that falls, which the build refuses: they are 0 but for some offsets, and bounds that lead the
// walk from split 1 to all rows.
fn turned(k: u16) -> [Rule; 1] {
    let parts = untouched()
        .cells(mixed(0, 3798, 7, 3))
        .left(same(0, 1, 1))
        .right(same(1, usize::from(k), k));
    [("turned", parts)]
}

// The lines of the rules: the places of the full index in buckets of two rows.
fn print_places(rt: &impl Print, rules: &[Rule], keys: &[u64], seed: u64) -> io::Result<()> {
    for (name, parts) in rules {
        let places = placed::<Full>(keys, 2, 2, seed, *parts);
        let tag = "digest";
        println!(rt; "stores={name}{}", Places { tag, places })?;
    }
    Ok(())
}

// The lines of the rules: what the slim profile says in buckets of b rows, over the stores that its build in buckets of
// `built` rows leaves.
fn print_answers(
    rt: &impl Print,
    rules: &[Rule],
    keys: &[u64],
    b: usize,
    built: usize,
    seed: u64,
) -> io::Result<()> {
    for (name, parts) in rules {
        let told = answered::<Slim>(keys, b, built, seed, *parts);
        println!(rt; "stores={name}{told}")?;
    }
    Ok(())
}

// The full index of n keys, in buckets of two rows.
fn block(rt: &impl Print, sample: Sample, n: u16) -> io::Result<()> {
    let mut keys = [0u64; 2000];
    table::fill(sample, Order::Rising, &mut keys);
    let rows = first(usize::from(n), &keys);
    let seed = first_taken::<Full>(rows, 2);
    let root = built::<Full>(rows, 2, seed).root;
    println!(rt; "table={sample} keys={n} seed={seed}")?;
    print_places(rt, &bounds(n), rows, seed)?;
    print_places(rt, &lengths(n, root), rows, seed)
}

// The slim profile of n keys in buckets of b rows, which are k.
fn slim_block(rt: &impl Print, sample: Sample, n: u16, b: usize, k: u16) -> io::Result<()> {
    let mut keys = [0u64; 300];
    table::fill(sample, Order::Rising, &mut keys);
    let rows = first(usize::from(n), &keys);
    let seed = first_taken::<Slim>(rows, b);
    let root = built::<Slim>(rows, b, seed).root;
    println!(rt; "table={sample} keys={n} bucket={b} seed={seed}")?;
    print_answers(rt, &offsets(), rows, b, b, seed)?;
    print_answers(rt, &past(k), rows, b, 256, seed)?;
    print_answers(rt, &bounds(k), rows, b, b, seed)?;
    print_answers(rt, &lengths(k, root), rows, b, b, seed)?;
    table::fill(sample, Order::Turned(usize::from(n)), &mut keys);
    print_answers(rt, &turned(k), first(usize::from(n), &keys), b, b, seed)
}

pub fn print(rt: &impl Print) -> io::Result<()> {
    for sample in Sample::ALL {
        for n in [0, 1, 2, 3, 5, 17, 64, 65, 257, 2000] {
            if n <= sample.most() {
                block(rt, sample, n)?;
            }
        }
    }
    Ok(())
}

pub fn slim_print(rt: &impl Print) -> io::Result<()> {
    for sample in Sample::ALL {
        for n in [0, 1, 2, 3, 5, 17, 64, 65, 300] {
            if n <= sample.most() {
                for b in [2, 3, 16] {
                    slim_block(rt, sample, n, usize::from(b), n.div_ceil(b))?;
                }
            }
        }
    }
    Ok(())
}
