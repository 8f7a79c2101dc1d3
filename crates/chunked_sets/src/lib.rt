//! Sets as sorted lists in chunks, for sets of millions of entries.
//!
//! A change moves the entries of one chunk, and not all that follow. The contracts are those of
//! `SortedSet`.
#![tactic(auto)]

pub use chunked_set::ChunkedSet;
pub use entries::Entries;
pub use entry_set::EntrySet;
pub use of_names::{ChunkedGrants, ChunkedNames, ChunkedPairs, has_first};
pub use run::Run;
pub use sorting::sorted_once;
pub use two_way::{Turn, TwoWayGrants, TwoWayPairs, TwoWaySet};

pub mod chunked_set;
mod chunks;
pub mod entries;
pub mod entry_set;
mod making;
pub mod of_names;
mod pass;
mod removing;
pub mod run;
pub mod sorting;
pub mod two_way;
