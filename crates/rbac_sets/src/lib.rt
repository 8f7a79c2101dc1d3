//! The shared types of the role administration office: names, sets of names and of tuples of names,
//! commands, rows of the relations, refusals, limits, and sources and sinks of bytes.
//!
//! Every other crate of the office uses them. The sets are those of the standard (USERS, ROLES, UA,
//! PA and so on), kept in byte order.
//!
//! # Example
//!
//! ```
//! use rbac_sets::{Name, NameSet};
//! use std::test::Fail;
//!
//! fn a_set_is_in_byte_order(rt: HostRuntime) -> Result<(), Fail> {
//!     let alloc = rt.alloc();
//!     let mut users = NameSet::new(alloc);
//!     users.reserve(2)?;
//!     users.insert_reserved(Name::new(alloc, "bob")?);
//!     users.insert_reserved(Name::new(alloc, "ann")?);
//!     assert_eq!(rt; users.len(), 2);
//!     assert!(rt; users.iter().map(Name::as_str).eq(["ann", "bob"]));
//!     Ok(())
//! }
//! ```
#![tactic(auto)]

pub use borrowed_name::BorrowedName;
pub use command::Command;
pub use kind::Kind;
pub use name::{FINGERPRINTS, Name, is_same};
pub use refusal::Refusal;
pub use removal::SetRemoval;
pub use row::{Change, Row};
pub use sets::{CountSet, GrantSet, NameSet, PairSet, has_first, has_second};
pub use sink::{MemorySink, Sink, Writer, write_all};
pub use sorted_set::{Entry, Prefix, Probe, SortedSet, place};
pub use source::{Fault, MemorySource, Reader, Source};
pub use table::Table;

pub mod borrowed_name;
pub mod command;
pub mod kind;
pub mod name;
pub mod refusal;
pub mod removal;
mod ring;
pub mod row;
pub mod sets;
pub mod sink;
pub mod sorted_set;
pub mod source;
pub mod table;
