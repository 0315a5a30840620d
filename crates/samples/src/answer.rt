// The digest of many answers, and of the entries of stores.
ghost use Rattle.std.specs.Prelude.{◌≡◌, ◌+◌, ◌%◌, ◌^◌};
ghost use Rattle.words.specs.Mix.{mix_of};

use words::hash::mix;

// The digest with one more answer.
pub fn digest(before: u64, answer: u64) -> u64
    ensures { result ≡ mix_of ((before + answer) % 2 ^ 64) }
{
    mix(before.wrapping_add(answer))
}

// The digest with every entry of a store, in order.
pub fn digest_all<T: Copy + Into<u64>>(before: u64, store: &[T]) -> u64 {
    let mut all = before;
    for entry in store {
        all = digest(all, (*entry).into());
    }
    all
}
