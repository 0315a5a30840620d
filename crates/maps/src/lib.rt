// Static maps (document 01, "Static maps"): the build of one map from its items to their values, under one seed.
//
// Every function is proved and the crate assumes nothing. `build` asks for items that can be read and for memory of the
// named lengths, which its callers have tested.
#![tactic(auto)]

pub mod build;
