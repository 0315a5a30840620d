// Numbers as 16 lower-case hexadecimal digits, read from a slice of bytes and written to one.
//
// Every function is proved and the crate assumes nothing. No public function has a `requires`.
#![tactic(auto)]

ghost use Rattle.digits.specs.Texts.{Reads, Writes};
ghost use Rattle.digits.specs.Numbers.{hex_text, ended};
ghost use Rattle.digits.specs.Inner.{Hexes};

use digits::{Read, put};

// The number of a lower-case hexadecimal digit.
fn hex_value(b: u8) -> Option<u64>
    ensures { Hexes b result }
{
    match b {
        b'0'..=b'9' => Some(u64::from(b - b'0')),
        b'a'..=b'f' => Some(u64::from(b - b'a' + 10)),
        _ => None,
    }
}

// The 16 hexadecimal digits at i of a number up to `most`, and the byte `end` after them.
pub fn read_hex(s: &[u8], i: usize, most: u64, end: u8) -> Option<Read>
    ensures { Reads most (ended hex_text end) s.now i result }
{
    if s.len().checked_sub(i)? < 17 {
        return None;
    }
    let mut value: u64 = 0;
    for b in &s[i..i + 16] {
        let d = hex_value(*b)?;
        value = value * 16 + d;
    }
    if s[i + 16] != end {
        return None;
    }
    if most < value {
        return None;
    }
    Some(Read {
        value,
        next: i + 17,
    })
}

// Puts v as 16 hexadecimal digits and the byte `end` at i.
pub fn write_hex(out: &mut [u8], i: usize, v: u64, end: u8) -> Option<usize>
    ensures { Writes (ended hex_text end v) out.old i out.new result }
{
    put::write_digits(out, i, 16, 16, v, end)
}
