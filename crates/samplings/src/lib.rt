// What the test programs over the indexes share (docs/VECTORS.md): what a build says and leaves, the first seed that it
// takes, the asks with their digest, and the parts that are printed of the full build and of the slim one alike. It
// stands apart from `samples`, which knows no index. No store is lent from function to function but to the asks: each
// is a local array of the one that builds it, since every lent slice makes a function dearer to prove.
//
// Every function is proved and the crate assumes nothing. The contracts are empty but for what is asked of a closure,
// and the programs show what the functions do by comparing what they print.
#![tactic(auto)]

pub mod answers;
pub mod asks;
pub mod builds;
pub mod profiles;
pub mod refused;
pub mod spoiled;
pub mod told;
pub mod verdict_lines;
