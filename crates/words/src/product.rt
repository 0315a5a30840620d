// The two words of a product of two words, from halves of 32 bits: the form that document 01 names for it, in which no
// word is wider than 64 bits.
ghost use Rattle.std.specs.Prelude.{◌≡◌, ◌*◌, ◌/◌, ◌%◌, ◌^◌};

// The low word, a * b modulo 2^64. The product of the two upper halves is a multiple of 2^64, so it is left out.
pub fn wrapping_mul(a: u64, b: u64) -> u64
    ensures { result ≡ a * b % 2 ^ 64 }
{
    let a0 = a % 0x1_0000_0000;
    let a1 = a / 0x1_0000_0000;
    let b0 = b % 0x1_0000_0000;
    let b1 = b / 0x1_0000_0000;
    let middle = (a1 * b0).wrapping_add(a0 * b1);
    (middle << 32).wrapping_add(a0 * b0)
}

// The high word, column by column with what the column before carries. LLVM makes one multiplication of it.
pub fn high_product(a: u64, b: u64) -> u64
    ensures { result ≡ a * b / 2 ^ 64 }
{
    let a0 = a % 0x1_0000_0000;
    let a1 = a / 0x1_0000_0000;
    let b0 = b % 0x1_0000_0000;
    let b1 = b / 0x1_0000_0000;
    let right = a1 * b0 + a0 * b0 / 0x1_0000_0000;
    let middle = right % 0x1_0000_0000 + a0 * b1;
    a1 * b1 + right / 0x1_0000_0000 + middle / 0x1_0000_0000
}
