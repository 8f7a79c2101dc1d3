//! Explanations: why a user may do an operation on an object in some session, or why not; why a session may, or why not; and which
//! separation of duty sets a command would violate.
//!
//! No question changes the state. A question about something that isn't there is refused.
//!
//! # Example
//!
//! ```
//! use admin_mgr::State;
//! use explanations::explain_user_access;
//! use rbac_sets::{BorrowedName, Refusal};
//! use std::test::Fail;
//!
//! fn nobody_is_there_yet(rt: HostRuntime) -> Result<(), Fail> {
//!     let alloc = rt.alloc();
//!     let state = State::empty(alloc);
//!     let user = BorrowedName::new("ann")?;
//!     let operation = BorrowedName::new("open")?;
//!     let object = BorrowedName::new("safe")?;
//!     let reason = explain_user_access(&state, &user, &operation, &object);
//!     assert!(rt; matches!(reason, Err(Refusal::NoUser)));
//!     Ok(())
//! }
//! ```
#![tactic(auto)]

pub use conflicts::{violated_by_activation, violated_by_assignment};
pub use creation::violated_by_creation;
pub use inheritance::{violated_by_inheritance, violated_in_sessions};
pub use session_access::{SessionReason, explain_session_access};
pub use user_access::{UserReason, explain_user_access};

mod by_number;
pub mod conflicts;
pub mod creation;
pub mod inheritance;
pub mod session_access;
pub mod user_access;
