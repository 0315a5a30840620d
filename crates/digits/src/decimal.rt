// Decimal numbers without leading zeros.
ghost use Rattle.std.specs.Prelude.{◌≡◌, ◌+◌, ◌≤◌, ◌<◌, length};
ghost use Rattle.std.proofs.Math.Seq.{slice};
ghost use Rattle.digits.specs.Texts.{Writes};
ghost use Rattle.digits.specs.Numbers.{is_digit, decimal_text, ended, ReadsAmount};
ghost use Rattle.digits.specs.Inner.{Run, folded, Limited};

use crate::{Read, Unread, put};

// Whether the byte is one of `0` to `9`.
pub fn is_digit(b: u8) -> bool
    ensures { result ≡ is_digit b }
{
    b.is_ascii_digit()
}

// The end of the run of digits at i. A `position` in the rest would have i added to it.
fn run_end(s: &[u8], i: usize) -> usize
    requires { i ≤ length s.now }
    ensures { Run s.now i result }
{
    for j in i..s.len() {
        if !is_digit(s[j]) {
            return j;
        }
    }
    s.len()
}

// The number that the run of digits from i to j says. It stops at the limit, so that no number wraps.
fn number(s: &[u8], i: usize, j: usize, most: u64) -> Result<Read, Unread>
    requires { Run s.now i j × (j < length s.now) }
    ensures { Limited most (folded 0 (slice i j s.now)) (j + 1) result }
{
    let next = j + 1;
    let mut value: u64 = 0;
    for b in &s[i..j] {
        let d = u64::from(*b) - 48;
        if most < d {
            return Err(Unread::Over { next });
        }
        if (most - d) / 10 < value {
            return Err(Unread::Over { next });
        }
        value = value * 10 + d;
    }
    Ok(Read { value, next })
}

// The decimal number at i and the byte `end` after it, which is no digit.
pub fn read_decimal(s: &[u8], i: usize, most: u64, end: u8) -> Result<Read, Unread>
    ensures { ReadsAmount most end s.now i result }
{
    if s.len() < i {
        return Err(Unread::Wrong);
    }
    if is_digit(end) {
        return Err(Unread::Wrong);
    }
    let j = run_end(s, i);
    if s.len() <= j {
        return Err(Unread::Wrong);
    }
    if s[j] != end {
        return Err(Unread::Wrong);
    }
    if j == i {
        return Err(Unread::Wrong);
    }
    if s[i] == b'0' {
        if i + 1 < j {
            return Err(Unread::Wrong);
        }
    }
    number(s, i, j, most)
}

// How many digits n has. std converts no `u32` to `usize` by `From`.
pub fn decimal_length(n: u64) -> usize
    ensures { (result ≡ length (decimal_text n)) × (result ≤ 20) }
{
    n.max(1).ilog10() as usize + 1
}

// Puts n in decimal and the byte `end` at i.
pub fn write_decimal(out: &mut [u8], i: usize, n: u64, end: u8) -> Option<usize>
    ensures { Writes (ended decimal_text end n) out.old i out.new result }
{
    put::write_digits(out, i, decimal_length(n), 10, n, end)
}
