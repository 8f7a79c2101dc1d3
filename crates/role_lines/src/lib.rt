//! An office in memory, without a store: it answers lines of JSON, and decides about access.
//!
//! The answers are those that `role_wire` gives over a store.
//!
//! # Example
//!
//! ```
//! use bit_tables::Seed;
//! use role_lines::MemoryOffice;
//! use std::test::Fail;
//!
//! fn a_line_is_answered(rt: HostRuntime) -> Result<(), Fail> {
//!     let alloc = rt.alloc();
//!     let mut office = MemoryOffice::empty(alloc, Seed::new(1, 2));
//!     office.answer(alloc, br#"{"fn":"addUser","user":"ann"}"#)?;
//!     assert!(rt; office.kept_answer() == br#"{"ok":true}"#.as_slice());
//!     assert_eq!(rt; office.revision(), 1);
//!     Ok(())
//! }
//! ```
#![tactic(auto)]

pub use deciding::{decide, decide_for_user};
pub use office::MemoryOffice;
pub use rows::{RowParts, TableRows, row_at, row_of, rows_from, table_numbered};

mod answering;
pub mod deciding;
pub mod indexed;
pub mod office;
pub mod rows;
