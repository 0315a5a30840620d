// A sorted table of keys, and what both indexes read off it (document 01, "The two indexes" and "Call index").
//
// Every function is proved and the crate assumes nothing. `first_fall` and `bucket_view` take whatever they
// are handed; the others ask for sizes, or for a rising table, that their callers have tested.
#![tactic(auto)]

pub mod bucket;
pub mod delimiter;
pub mod delimiters;
pub mod lengths;
pub mod table;
