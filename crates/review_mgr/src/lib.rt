//! The questions to an office: access decisions, and the review functions of the standard.
//!
//! No question changes the state. A question about something that isn't there is refused; otherwise
//! the answer is the set that the standard defines, as a list in byte order. The role report counts,
//! for each role, its users, permissions, juniors and seniors.
//!
//! # Example
//!
//! ```
//! use admin_mgr::State;
//! use rbac_sets::{BorrowedName, MemorySink, Refusal};
//! use review_mgr::{check_access, report_roles};
//! use std::test::Fail;
//!
//! fn nothing_is_there_yet(rt: HostRuntime) -> Result<(), Fail> {
//!     let alloc = rt.alloc();
//!     let state = State::empty(alloc);
//!     let session = BorrowedName::new("s1")?;
//!     let operation = BorrowedName::new("open")?;
//!     let object = BorrowedName::new("safe")?;
//!     let access = check_access(&state, &session, &operation, &object);
//!     assert!(rt; matches!(access, Err(Refusal::NoSession)));
//!     // The report of an office without roles is its heading.
//!     let mut report = MemorySink::new(alloc);
//!     report_roles(alloc, &state, &mut report)?;
//!     assert!(rt; report.as_slice().ends_with(b"seniors  role\n"));
//!     Ok(())
//! }
//! ```
#![tactic(auto)]

pub use access::check_access;
pub use asking::ask;
pub use query::{Answer, Query};
pub use report::report_roles;
pub use user_access::check_user_access;

pub mod access;
pub mod asking;
mod fingerprints;
mod gather;
mod intersection;
pub mod laws;
mod lookup;
pub mod query;
pub mod report;
pub mod review;
pub mod user_access;
