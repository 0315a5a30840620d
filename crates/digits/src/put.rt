// What both kinds of number share: a digit's byte, and digits written from the last to the first.
ghost use Rattle.std.specs.Prelude.{◌≡◌, ◌≤◌, [], ◌∷◌, ◌++◌};
ghost use Rattle.digits.specs.Texts.{Writes};
ghost use Rattle.digits.specs.Numbers.{glyph, digits_in};

// The byte of a digit. `as` keeps a number of at most 15.
fn digit_byte(d: u64) -> u8
    requires { d ≤ 15 }
    ensures { result ≡ glyph d }
{
    if d < 10 {
        return b'0' + d as u8;
    }
    b'a' - 10 + d as u8
}

// Puts the last k digits of v and the byte `end` at i.
pub fn write_digits(out: &mut [u8], i: usize, k: usize, base: u64, v: u64, end: u8) -> Option<usize>
    requires { (1 ≤ base) × (base ≤ 16) }
    ensures { Writes (digits_in base k v ++ (end ∷ [])) out.old i out.new result }
{
    if out.len().checked_sub(i)? <= k {
        return None;
    }
    out[i + k] = end;
    let mut w = v;
    for j in (0..k).rev() {
        out[i + j] = digit_byte(w % base);
        w /= base;
    }
    Some(i + k + 1)
}
