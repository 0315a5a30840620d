// One line: a tag, a number and a line feed.
ghost use Rattle.std.specs.Prelude.{◌≡◌, ◌+◌, ◌≤◌, length};
ghost use Rattle.digits.specs.Texts.{Reads, Writes};
ghost use Rattle.lines.specs.Lines.{line, number_text};

use crate::{Kind, text};
use digits::Read;

// The line at i, whose number is at most `most`.
pub fn read_line(s: &[u8], i: usize, tag: &[u8], kind: Kind, most: u64) -> Option<Read>
    ensures { Reads most (line kind tag.now) s.now i result }
{
    let j = text::expect(s, i, tag)?;
    match kind {
        Kind::Decimal => digits::decimal::read_decimal(s, j, most, b'\n').ok(),
        Kind::Hex => hexdigits::read_hex(s, j, most, b'\n'),
    }
}

// How many digits the number has.
fn number_length(kind: Kind, v: u64) -> usize
    ensures { (result ≡ length (number_text kind v)) × (result ≤ 20) }
{
    match kind {
        Kind::Decimal => digits::decimal::decimal_length(v),
        Kind::Hex => 16,
    }
}

// How many bytes the line has.
pub fn line_length(tag: &[u8], kind: Kind, v: u64) -> usize
    ensures { (result ≡ length (line kind tag.now v)) × (result ≤ length tag.now + 21) }
{
    tag.len() + number_length(kind, v) + 1
}

// Puts the line at i.
pub fn write_line(out: &mut [u8], i: usize, tag: &[u8], kind: Kind, v: u64) -> Option<usize>
    ensures { Writes (line kind tag.now v) out.old i out.new result }
{
    if out.len().checked_sub(i)? < line_length(tag, kind, v) {
        return None;
    }
    let j = text::write_bytes(out, i, tag)?;
    match kind {
        Kind::Decimal => digits::decimal::write_decimal(out, j, v, b'\n'),
        Kind::Hex => hexdigits::write_hex(out, j, v, b'\n'),
    }
}
