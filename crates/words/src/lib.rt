// 64-bit words: the arithmetic on which both indexes stand (document 01, "Static maps" and the 2-fattest numbers of
// "Neighbour index").
//
// Every function is proved and the crate assumes nothing. `prefix_item` and `fattest` ask for a length and a range that
// have an answer, and a remainder for the reciprocal of what it divides by; the other functions take any words.
#![tactic(auto)]

pub mod fattest;
pub mod hash;
pub mod prefix;
pub mod product;
pub mod remainder;
