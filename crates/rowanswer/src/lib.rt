// rowcheck as a function on slices (document 01, "`rowcheck`"): from the text of an input to the text that is printed.
//
// Every function is proved and the crate assumes nothing. `run::answer` has no `requires`.
#![tactic(auto)]

pub mod run;
