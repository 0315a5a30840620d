// Numbers as text (document 01, "`rowcheck`"): decimal without leading zeros, and 16 lower-case hexadecimal digits
// (whose code stands in `hexdigits`). They are read from a slice of bytes at a position and written there, each with the byte
// that ends it. The position after a text that was found or written is an `Option`: there is none where the text isn't.
//
// Every function is proved and the crate assumes nothing. No public function has a `requires`.
#![tactic(auto)]

pub mod decimal;
pub mod put;

// What a reader of a number found: its value, and the position after its text.
#[derive(Clone, Copy)]
pub struct Read {
    pub value: u64,
    pub next: usize,
}

// Why a reader of a decimal number of any size has no value: the number is above the limit, or none stands there. No
// `Option`: the clause of `read_decimal` tells the two apart.
#[derive(Clone, Copy)]
pub enum Unread {
    Over { next: usize },
    Wrong,
}
