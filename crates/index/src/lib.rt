// The library's face: what a customer links. It hands on the packer and unpacker of call keys, the build of both
// indexes and their asks, the build of the slim profile and its ask, the bucket view, and the lengths of the stores to
// lend. None of them has a `requires`.
//
// specs/Demands.antt states the customer's demands of these entries, specs/Slim.antt those on the slim profile, and
// specs/Worked.antt the worked cases of document 01; proofs/ proves them.
#![tactic(auto)]

pub use call::call_ask;
pub use callkey::{Fields, pack, unpack};
pub use full::full_build;
pub use neighbour::{Place, neighbour_ask};
pub use outcomes::Outcome;
pub use refusals::{Jam, Refusal, Reported, StaticMap, Store, Unbuilt, Verdict};
pub use slim::{SlimAnswer, slim_ask, slim_build, slim_lengths};
pub use stores::{Sizes, named_lengths};
pub use tables::bucket::bucket_view;
