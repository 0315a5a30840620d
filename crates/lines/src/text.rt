// A given text such as a line's tag.
ghost use Rattle.digits.specs.Texts.{Writes};
ghost use Rattle.lines.specs.Lines.{Expects};

// Whether s has the text t at position i: the position after it.
pub fn expect(s: &[u8], i: usize, t: &[u8]) -> Option<usize>
    ensures { Expects t.now s.now i result }
{
    if s.len() < i {
        return None;
    }
    if s[i..].starts_with(t) {
        Some(i + t.len())
    } else {
        None
    }
}

// Puts the text t at position i.
pub fn write_bytes(out: &mut [u8], i: usize, t: &[u8]) -> Option<usize>
    ensures { Writes t.now out.old i out.new result }
{
    if out.len().checked_sub(i)? < t.len() {
        return None;
    }
    let next = i + t.len();
    out[i..next].copy_from_slice(t);
    Some(next)
}
