// Writes what the packer and the unpacker say of fields and keys at, and one over, each limit (docs/VECTORS.md).
#![tactic(auto)]

use samples::console::Console;
use std::io;

// The fields day, stop, second and block.
const FIELDS: [[u32; 4]; 15] = [
    [1, 2, 3, 4],
    [0, 0, 0, 0],
    [65535, 65535, 86399, 32767],
    [65535, 65535, 107999, 32767],
    [65536, 0, 0, 0],
    [0, 65536, 0, 0],
    [0, 0, 86400, 0],
    [0, 0, 107999, 0],
    [0, 0, 108000, 0],
    [0, 0, 131071, 0],
    [0, 0, 131072, 0],
    [0, 0, 0, 32768],
    [4294967295, 4294967295, 4294967295, 4294967295],
    [20411, 17, 12600, 204],
    [20411, 17, 88895, 205],
];

const KEYS: [u64; 13] = [
    0x0001_0002_0001_8004,
    0x0000_0000_0000_0000,
    0xFFFF_FFFF_FFFF_FFFF,
    0xFFFF_FFFF_A8BF_FFFF,
    0xFFFF_FFFF_A8C0_0000,
    0x0000_0000_D2EF_FFFF,
    0x0000_0000_D2F0_0000,
    0xFFFF_FFFF_D2EF_FFFF,
    0x0000_0000_FFFF_8000,
    0xFFFF_FFFF_FFFF_FFFE,
    0x4FBB_0011_189C_00CC,
    0x4FBB_0011_AD9F_80CD,
    0x8000_0000_0000_0000,
];

fn packed(rt: &impl Print, fields: [u32; 4]) -> io::Result<()> {
    let [day, stop, second, block] = fields;
    match callkey::pack(day, stop, second, block) {
        Ok(key) => println!(rt; "key={key:016x}"),
        Err(r) => println!(rt; "refused={}", r.number()),
    }
}

fn unpacked(rt: &impl Print, key: u64) -> io::Result<()> {
    match callkey::unpack(key) {
        Ok(f) => println!(rt;
            "day={} stop={} second={} block={}",
            f.day, f.stop, f.second, f.block
        ),
        Err(r) => println!(rt; "refused={}", r.number()),
    }
}

fn print(rt: &impl Print) -> io::Result<()> {
    for fields in FIELDS {
        packed(rt, fields)?;
    }
    for key in KEYS {
        unpacked(rt, key)?;
    }
    Ok(())
}

fn main() {
    // A program that can't write ends as one that could: what it prints is compared.
    let _ = print(&Console);
}
