// What the call index says over cleared, sparse and random cells, of tables and tables turned round.
ghost use Rattle.std.specs.Prelude.{◌≤◌};

use samples::store::{first, mixed, none};
use samples::table;
use samples::table::{Order, Sample};
use samplings::asks::print_call;
use std::io;

// The lines of a table, of which the first `few` cells are sparse; `turned` ends the rules' names.
fn print_cells(
    rt: &impl Print,
    keys: &[u64],
    b: usize,
    few: usize,
    turned: &str,
) -> io::Result<()> {
    for (name, part) in [
        ("zero", none()),
        ("few", mixed(0, few, 7, 3)),
        ("random", mixed(0, 3798, 1000003, 65535)),
    ] {
        print!(rt; "cells={name}{turned}")?;
        print_call(rt, keys, b, part)?;
    }
    Ok(())
}

fn block(rt: &impl Print, sample: Sample, n: usize, b: usize) -> io::Result<()>
    requires { n ≤ 2000 }
{
    let mut keys = [0u64; 2000];
    let few = cells::cell_count(n);
    println!(rt; "table={sample} keys={n} bucket={b}")?;
    table::fill(sample, Order::Rising, &mut keys);
    print_cells(rt, first(n, &keys), b, few, "")?;
    table::fill(sample, Order::Turned(n), &mut keys);
    print_cells(rt, first(n, &keys), b, few, "-turned")
}

pub fn print(rt: &impl Print) -> io::Result<()> {
    for sample in Sample::ALL {
        for n in [0, 1, 2, 3, 17, 64, 65, 256, 257, 2000] {
            if n <= sample.most() {
                for b in [2, 3, 16, 255, 256] {
                    block(rt, sample, usize::from(n), b)?;
                }
            }
        }
    }
    Ok(())
}
