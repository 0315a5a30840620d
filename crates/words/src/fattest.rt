// The 2-fattest number of a range of lengths.
ghost use Rattle.std.specs.Prelude.{◌<◌, ◌≤◌};
ghost use Rattle.words.specs.Fat.{Fattest};

// The number with a < r <= b that is divisible by the highest power of two: b, cleared below the highest bit in which
// the two ends differ.
pub fn fattest(a: u64, b: u64) -> u64
    requires { (a < b) × (b ≤ 64) }
    ensures { Fattest a b result }
{
    let k = 63 - (a ^ b).leading_zeros();
    b >> k << k
}
