// The input of `rowcheck` (document 01, "`rowcheck`"), a bucket size, keys and asks, read from a slice of bytes.
//
// Every function is proved and the crate assumes nothing. No public function has a `requires`.
#![tactic(auto)]

ghost use Rattle.std.specs.Option.{ok_or};
ghost use Rattle.refusals.specs.declared.Refusal.TheVariants.{Text};
ghost use Rattle.rowinput.specs.Input.{ReadsInput};
ghost use Rattle.rowinput.specs.Inner.{LoadsList};

use lines::{Kind, line};
use refusals::Refusal;

// What an input is: a bucket size, and how many keys and asks were put into the lent slices.
#[derive(Clone, Copy)]
pub struct Input {
    pub bucket: usize,
    pub keys: usize,
    pub asks: usize,
}

// A count line and that many lines: how many, and where they end.
#[derive(Clone, Copy)]
struct Listed {
    count: usize,
    end: usize,
}

// The line `head` with a count up to `most` at i, and that many lines `tag` with 16 hexadecimal digits, whose numbers
// are put at the start of `out`. A count becomes a `usize` by `as`, since std has no `From` for that.
fn load_list(
    s: &[u8],
    i: usize,
    head: &[u8],
    tag: &[u8],
    most: u64,
    out: &mut [u64],
) -> Option<Listed>
    ensures { LoadsList most head.now tag.now s.now i out.old out.new result }
{
    let first = line::read_line(s, i, head, Kind::Decimal, most)?;
    let count = first.value as usize;
    let end = lists::load(s, first.next, tag, Kind::Hex, u64::MAX, count, out)?;
    Some(Listed { count, end })
}

// The input, if it is one.
fn scan(s: &[u8], keys: &mut [u64], asks: &mut [u64]) -> Option<Input>
    ensures { ReadsInput s.now keys.old asks.old keys.new asks.new (ok_or result Text) }
{
    let bucket = line::read_line(s, 0, b"bucket=", Kind::Decimal, 65535)?;
    let key_lines = load_list(s, bucket.next, b"keys=", b"key=", 2048, keys)?;
    let ask_lines = load_list(s, key_lines.end, b"asks=", b"ask=", 512, asks)?;
    if ask_lines.end != s.len() {
        return None;
    }
    Some(Input {
        bucket: bucket.value as usize,
        keys: key_lines.count,
        asks: ask_lines.count,
    })
}

// Takes the input exactly if it is the text of a bucket size up to 65,535, at most 2,048 keys and at most 512 asks
// for which the slices have room; anything else is refusal 8. Each line is read once, and its number stored at once: the
// slices are the program's own, so after a refusal they may hold what was read so far.
pub fn read_input(s: &[u8], keys: &mut [u64], asks: &mut [u64]) -> Result<Input, Refusal>
    ensures { ReadsInput s.now keys.old asks.old keys.new asks.new result }
{
    scan(s, keys, asks).ok_or(Refusal::Text)
}
