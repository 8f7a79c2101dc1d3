//! What clients of an office use: requests as lines of JSON and over HTTP, and assignments as CSV.
//!
//! # Example
//!
//! ```
//! use rbac_sets::{MemorySink, MemorySource};
//! use role_tables::create;
//! use role_wire::replay;
//! use sqlite::Connection;
//! use std::test::Fail;
//!
//! fn each_line_is_answered(rt: HostRuntime) -> Result<(), Fail> {
//!     let alloc = rt.alloc();
//!     let Ok(mut office) = create(alloc, Connection::open_in_memory(alloc)?) else {
//!         return Err("not made")?;
//!     };
//!     let mut source = MemorySource::new(br#"{"fn":"addUser","user":"ann"}"#);
//!     let mut sink = MemorySink::new(alloc);
//!     let count = replay(alloc, &mut office, &mut source, &mut sink)?;
//!     assert_eq!(rt; count.answered, 1);
//!     assert!(rt; sink.as_slice() == b"{\"ok\":true}\n".as_slice());
//!     Ok(())
//! }
//! ```
#![tactic(auto)]

pub use lines::{Cause, Count, Stop};
pub use office_replay::replay;
pub use role_csv::{read_assignments, write_assignments};
pub use role_json::{Function, Request, Verdict, answer_text, read_body, read_request};
pub use serving::{Answered, Served, Server, serve_one};

pub mod laws;
pub mod lines;
pub mod office_replay;
mod office_request;
mod prepared_reply;
pub mod serving;
