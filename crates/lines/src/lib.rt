// Lines of text (document 01, "`rowcheck`"): a tag such as `key=`, a number and a line feed. One line is read
// from a slice of bytes at a position and written there; n lines of a kind are in `lists`.
//
// A text and a position stay two arguments: a contract speaks of the text before the position and after it. So do a tag
// and a kind: a caller has both as literals, and a struct would be put together there and taken apart here.
//
// Every function is proved and the crate assumes nothing. No public function has a `requires`.
#![tactic(auto)]

pub mod line;
pub mod text;

// How a line's number is written: in decimal without leading zeros, or as 16 lower-case hexadecimal digits. It stays an
// enum: three closures for each kind, to read, measure and write, are no plainer than one `match`.
#[derive(Clone, Copy)]
pub enum Kind {
    Decimal,
    Hex,
}
