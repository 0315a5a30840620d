// What `rowcheck` prints (document 01, "`rowcheck`", and request Five). Each function writes its lines at position i of a
// slice of bytes, or nothing where there is no room for all of them.
//
// Counts are widened by `as`, since std converts no `usize` to `u64` by `From`.
//
// Every function is proved and the crate assumes nothing. No public function has a `requires`.
#![tactic(auto)]

ghost use Rattle.std.specs.Prelude.{◌≡◌, ◌≤◌, length};
ghost use Rattle.digits.specs.Texts.{Writes};
ghost use Rattle.refusals.specs.Numbers.{number};
ghost use Rattle.rowoutput.specs.Output.{head_text, call_text, ask_text, refused_text, jam_text};

use lines::{Kind, line, text};
use refusals::Refusal;

// The head line, `keys=` and how many keys there are.
pub fn write_head(out: &mut [u8], i: usize, n: usize) -> Option<usize>
    ensures { Writes (head_text n) out.old i out.new result }
{
    line::write_line(out, i, b"keys=", Kind::Decimal, n as u64)
}

// A refusal, `refused=` and its number alone.
pub fn write_refusal(out: &mut [u8], i: usize, refusal: Refusal) -> Option<usize>
    ensures { Writes (refused_text (number refusal)) out.old i out.new result }
{
    line::write_line(out, i, b"refused=", Kind::Decimal, refusal.number())
}

#[tactic(auto, using(crate::proofs::Printing::jam_length))]
fn jam_length(size: usize) -> usize
    ensures { result ≡ length (jam_text size) }
{
    line::line_length(b"refused=", Kind::Decimal, 5)
        + line::line_length(b"jammed=", Kind::Decimal, size as u64)
}

// The two lines where all seeds jam: `refused=5`, then `jammed=` and the size of the largest jam.
pub fn write_jam(out: &mut [u8], i: usize, size: usize) -> Option<usize>
    ensures { Writes (jam_text size) out.old i out.new result }
{
    if out.len().checked_sub(i)? < jam_length(size) {
        return None;
    }
    let a = line::write_line(out, i, b"refused=", Kind::Decimal, 5)?;
    line::write_line(out, a, b"jammed=", Kind::Decimal, size as u64)
}

fn call_length(call: Option<usize>) -> usize
    ensures { (result ≡ length (call_text call)) × (result ≤ 26) }
{
    match call {
        Some(row) => line::line_length(b"call=", Kind::Decimal, row as u64),
        None => 10,
    }
}

// `call=` and the row, or `call=none`.
fn write_call(out: &mut [u8], i: usize, call: Option<usize>) -> Option<usize>
    ensures { Writes (call_text call) out.old i out.new result }
{
    match call {
        Some(row) => line::write_line(out, i, b"call=", Kind::Decimal, row as u64),
        None => text::write_bytes(out, i, b"call=none\n"),
    }
}

#[tactic(auto, using(crate::proofs::Printing::ask_size))]
fn ask_length(x: u64, call: Option<usize>, before: usize, probes: usize) -> usize
    ensures { result ≡ length (ask_text x call before probes) }
{
    line::line_length(b"ask=", Kind::Hex, x)
        + call_length(call)
        + line::line_length(b"before=", Kind::Decimal, before as u64)
        + line::line_length(b"probes=", Kind::Decimal, probes as u64)
}

// The four lines of an ask: the key, the call index's row or none, and the neighbour answer's number before and its
// probes.
pub fn write_ask(
    out: &mut [u8],
    i: usize,
    x: u64,
    call: Option<usize>,
    before: usize,
    probes: usize,
) -> Option<usize>
    ensures { Writes (ask_text x call before probes) out.old i out.new result }
{
    if out.len().checked_sub(i)? < ask_length(x, call, before, probes) {
        return None;
    }
    let a = line::write_line(out, i, b"ask=", Kind::Hex, x)?;
    let b = write_call(out, a, call)?;
    let d = line::write_line(out, b, b"before=", Kind::Decimal, before as u64)?;
    line::write_line(out, d, b"probes=", Kind::Decimal, probes as u64)
}
