// n lines of one kind, one after the other: found, loaded into a slice, measured and written. The numbers of a slice are
// 16 or 64 bits wide.
//
// Every function is proved and the crate assumes nothing. No public function has a `requires`.
#![tactic(auto)]

ghost use Rattle.std.specs.Prelude.{◌≡◌, ℕ, ◌<◌, ◌≤◌, ◌^◌, map, MatchOption};
ghost use Rattle.digits.specs.Texts.{Writes};
ghost use Rattle.lines.specs.Lines.{line, lines, Lined, Loads, Leaves};

use lines::{Kind, line};

// The width of a slice's numbers. `Into<u64>` and `TryFrom<u64>` would do the same, but no law of theirs says that a number
// comes back as it went.
pub trait Word: Copy {
    // The number that a value is, and the number that no value reaches.
    ghost value: { Self → ℕ };

    ghost bound: { ℕ };

    // The number.
    fn widen(self) -> u64
        ensures value { result ≡ value self }
        ensures below { result < bound };

    // The value that is the number, if there is one.
    fn narrow(number: u64) -> Option<Self>
        ensures { MatchOption result (bound ≤ number) (λ x. value x ≡ number) };
}

impl Word for u16 {
    ghost value = { λ x. x };

    ghost bound = { 2 ^ 16 };

    fn widen(self) -> u64 {
        u64::from(self)
    }

    fn narrow(number: u64) -> Option<u16> {
        u16::try_from(number).ok()
    }
}

impl Word for u64 {
    ghost value = { λ x. x };

    ghost bound = { 2 ^ 64 };

    fn widen(self) -> u64 {
        self
    }

    fn narrow(number: u64) -> Option<u64> {
        Some(number)
    }
}

// The end of n lines at i, whose numbers are at most `most`.
pub fn lines_end(s: &[u8], i: usize, tag: &[u8], kind: Kind, most: u64, n: usize) -> Option<usize>
    ensures { Lined most (line kind tag.now) n s.now i result }
{
    if s.len() < i {
        return None;
    }
    let mut at = i;
    for _k in 0..n {
        at = line::read_line(s, at, tag, kind, most)?.next;
    }
    Some(at)
}

// Puts the numbers of the n lines at i at the start of `out`, if they stand there and there is room. It reads each
// line once and stops at the first that isn't there, so `out` may then hold what was read so far.
pub fn load<T: Word>(
    s: &[u8],
    i: usize,
    tag: &[u8],
    kind: Kind,
    most: T,
    n: usize,
    out: &mut [T],
) -> Option<usize>
    ensures { Loads (T.value most) (line kind tag.now) n s.now i
        (map T.value out.old) (map T.value out.new) result }
{
    if out.len() < n {
        return None;
    }
    if s.len() < i {
        return None;
    }
    let limit = most.widen();
    let mut at = i;
    for k in 0..n {
        let read = line::read_line(s, at, tag, kind, limit)?;
        out[k] = T::narrow(read.value)?;
        at = read.next;
    }
    Some(at)
}

// What is left of a room after a line for each of the numbers, if they fit.
pub fn room<T: Word>(room: usize, tag: &[u8], kind: Kind, xs: &[T]) -> Option<usize>
    ensures { Leaves (lines kind tag.now (map T.value xs.now)) room result }
{
    let mut left = room;
    for x in xs {
        left = left.checked_sub(line::line_length(tag, kind, x.widen()))?;
    }
    Some(left)
}

// Puts a line for each of the numbers at i.
pub fn write<T: Word>(out: &mut [u8], i: usize, tag: &[u8], kind: Kind, xs: &[T]) -> Option<usize>
    ensures { Writes (lines kind tag.now (map T.value xs.now)) out.old i out.new result }
{
    room(out.len().checked_sub(i)?, tag, kind, xs)?;
    let mut at = i;
    for x in xs {
        at = line::write_line(out, at, tag, kind, x.widen())?;
    }
    Some(at)
}

// `load` of 16-bit numbers, whose values are the numbers themselves. It and `write_u16` stay for their clauses, which
// speak of no trait.
pub fn load_u16(
    s: &[u8],
    i: usize,
    tag: &[u8],
    kind: Kind,
    most: u16,
    n: usize,
    out: &mut [u16],
) -> Option<usize>
    ensures { Loads most (line kind tag.now) n s.now i out.old out.new result }
{
    load(s, i, tag, kind, most, n, out)
}

// `write` of 16-bit numbers.
pub fn write_u16(out: &mut [u8], i: usize, tag: &[u8], kind: Kind, xs: &[u16]) -> Option<usize>
    ensures { Writes (lines kind tag.now xs.now) out.old i out.new result }
{
    write(out, i, tag, kind, xs)
}
