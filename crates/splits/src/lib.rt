// The splits of a sorted table, the inner nodes of its trie (document 01, "Neighbour index"): their lengths
// and handles. Their bounds and the root are built in `bounds`, the store of their lengths in `lengths`.
//
// The table is read as the delimiters of buckets of b rows; with b = 1 they are the table itself. Every function is
// proved and the crate assumes nothing. Each `requires` names a table that can be counted, a split of it, and stores
// with room; where it asks for a rising table too, the builds have tested that it rises.
#![tactic(auto)]

pub mod split;
