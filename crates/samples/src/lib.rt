// What the larger test programs share (docs/VECTORS.md): their tables, stores that no build left, the digest of
// answers, and the words that they print.
//
// Every function is proved and the crate assumes nothing. No public function has a `requires`; where the contract is
// empty, a program shows what the function does by comparing what it prints.
#![tactic(auto)]

pub mod answer;
pub mod console;
pub mod store;
pub mod table;
pub mod text;
