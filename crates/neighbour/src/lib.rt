// The neighbour index (document 01, "Neighbour index"): how many keys of a table stand before any x, by an exact
// z-fast trie.
//
// Every function is proved and the crate assumes nothing. The entry `neighbour_ask` has no `requires`: whatever table
// and stores it is lent, it answers or refuses as specs/Ask.antt says. `build` holds what the full
// build and the slim one share, which asks for a table and stores that were judged.
#![tactic(auto)]

pub mod ask;
pub mod build;

pub use ask::neighbour_ask;
pub use places::Place;
