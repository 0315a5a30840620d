// Stores that no build left.
ghost use Rattle.std.specs.Prelude.{◌≡◌, ℕ, ◌%◌, ◌^◌};

use words::hash::mix;

// Each entry i from `from` on and below `end` is to hold base + (mix(i + add) mod (most + 1)), of which a byte takes
// the lower half; but 0 where mix(i + 23) mod (rare + 1) is above 0.
#[derive(Clone, Copy)]
pub struct Part {
    from: usize,
    end: usize,
    base: u16,
    add: u64,
    most: u16,
    rare: u16,
}

pub fn mixed(from: usize, end: usize, add: u64, most: u16) -> Part {
    Part {
        add,
        most,
        ..same(from, end, 0)
    }
}

pub fn same(from: usize, end: usize, base: u16) -> Part {
    Part {
        from,
        end,
        base,
        add: 0,
        most: 0,
        rare: 0,
    }
}

// The row bytes `mixed`, of which about every fourth is not 0.
pub fn mixed_bytes(n: usize) -> Part {
    Part {
        base: 1,
        rare: 3,
        ..mixed(0, n, 29, 254)
    }
}

// The part of no entries.
pub fn none() -> Part {
    same(0, 0, 0)
}

// An entry of a store: what it keeps of a number.
pub trait Entry: Copy {
    ghost kept: { ℕ → Self };

    fn low(v: u64) -> Self
        ensures { result ≡ kept v };
}

impl Entry for u16 {
    ghost kept = { λ v. v % 2 ^ 16 };

    fn low(v: u64) -> u16 {
        (v % 65536) as u16
    }
}

impl Entry for u8 {
    ghost kept = { λ v. v % 2 ^ 8 };

    fn low(v: u64) -> u8 {
        (v % 256) as u8
    }
}

fn mixed_at(i: usize, add: u64, most: u16) -> u64 {
    mix((i as u64).wrapping_add(add)) % (u64::from(most) + 1)
}

fn entry_at(part: Part, i: usize) -> u64 {
    if 0 < mixed_at(i, 23, part.rare) {
        return 0;
    }
    u64::from(part.base).wrapping_add(mixed_at(i, part.add, part.most))
}

// Fills the part; where the store ends before it, to the store's end.
pub fn fill<T: Entry>(part: Part, store: &mut [T]) {
    for i in part.from..part.end.min(store.len()) {
        store[i] = T::low(entry_at(part, i));
    }
}

// The first n entries, or all where there are fewer.
pub fn first<T>(n: usize, store: &[T]) -> &[T] {
    &store[..n.min(store.len())]
}

// The same, to be written.
pub fn first_mut<T>(n: usize, store: &mut [T]) -> &mut [T] {
    let end = n.min(store.len());
    &mut store[..end]
}
