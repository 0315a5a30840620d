// Remainders by a number m that many words are divided by: one division gives its reciprocal, and then each remainder
// is two products.
ghost use Rattle.std.specs.Prelude.{◌≡◌, ◌*◌, ◌%◌, ◌^◌, ◌<◌, ◌≤◌};
ghost use Rattle.words.specs.Inner.{Reciprocal};

use crate::product::{high_product, wrapping_mul};

// How often m goes into a word.
pub fn reciprocal(m: u64) -> u64
    requires { 0 < m }
    ensures { Reciprocal m result }
{
    0xFFFF_FFFF_FFFF_FFFF / m
}

// h modulo m, for any word h. The high product is the quotient or one less, so m is taken once more, and given back
// where that was too much: the highest bit tells, and no branch is made that could not be predicted.
pub fn remainder(h: u64, m: u64, r: u64) -> u64
    requires { Reciprocal m r × (m ≤ 2 ^ 63) }
    ensures { result ≡ h % m }
{
    let less = (h - high_product(h, r) * m).wrapping_sub(m);
    less.wrapping_add((less >> 63) * m)
}

// x modulo m, where x is small: the low product is the fraction x / m in units of 2^-64, close enough that nothing is
// left to correct.
pub fn small_remainder(x: u64, m: u64, r: u64) -> u64
    requires { Reciprocal m r × (1 < m) × (x * m < 2 ^ 64) }
    ensures { result ≡ x % m }
{
    high_product(wrapping_mul(x, r + 1), m)
}
