// The call index (document 01, "Call index", and request Eight): a key of the table gets its sorted row, told as
// planned or as withdrawn, and every other key is absent.
//
// Every function is proved and the crate assumes nothing. The entry `call_ask`, which stands in `callask`, takes whatever
// it is handed; `build` holds the parts of the full build, which ask for a table and stores that were judged.
#![tactic(auto)]

pub mod build;

pub use callask::call_ask;
