// SplitMix64's output step, and the hash of an item under a map's seed.
ghost use Rattle.std.specs.Prelude.{◌≡◌};
ghost use Rattle.words.specs.Mix.{mix_of, item_hash};
ghost use Rattle.words.specs.Inner.{mixed_seed, mixed_hash};

use crate::product::wrapping_mul;

// SplitMix64's output step.
#[tactic(auto, unfolding(crate::specs::Mix::mix_of, crate::specs::Mix::xorshift))]
pub fn mix(z: u64) -> u64
    ensures { result ≡ mix_of z }
{
    let a = wrapping_mul(z ^ (z >> 30), 0xBF58_476D_1CE4_E5B9);
    let b = wrapping_mul(a ^ (a >> 27), 0x94D0_49BB_1331_11EB);
    b ^ (b >> 31)
}

// The mixed seed: it is the same for all items of a map.
pub fn mix_seed(seed: u64) -> u64
    ensures { result ≡ mixed_seed seed }
{
    mix(seed.wrapping_add(0x9E37_79B9_7F4A_7C15))
}

// The item and the mixed seed are added with wrap-around, and mixed again.
pub fn mixed_hash(item: u64, mixed: u64) -> u64
    ensures { result ≡ mixed_hash item mixed }
{
    mix(item.wrapping_add(mixed))
}

// The hash of an item under a seed.
pub fn item_hash(item: u64, seed: u64) -> u64
    ensures { result ≡ item_hash item seed }
{
    mixed_hash(item, mix_seed(seed))
}
