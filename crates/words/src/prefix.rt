// What two keys share, and the item that stands for a key's first bits. Bit 0 of a key is its highest.
ghost use Rattle.std.specs.Prelude.{◌≡◌, ◌<◌};
ghost use Rattle.words.specs.Keys.{shared_bits, prefix_item};

// How many leading bits a and b share: 64 where they are equal.
pub fn shared_bits(a: u64, b: u64) -> u32
    ensures { result ≡ shared_bits a b }
{
    (a ^ b).leading_zeros()
}

// The first l bits of x, then one 1 bit, then zeros. No shift is by 64: the shortest prefix keeps its mark in the
// highest bit.
#[tactic(auto, using(crate::proofs::Items::item_shifted))]
pub fn prefix_item(x: u64, l: u32) -> u64
    requires { l < 64 }
    ensures { result ≡ prefix_item x l }
{
    let k = 63 - l;
    ((x >> k) | 1) << k
}
