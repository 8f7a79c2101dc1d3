//! The state of the office, and every command on it.
//!
//! The state has the sets and relations of core RBAC, of the role hierarchy and of static and
//! dynamic separation of duty, and it is always good. A command is judged on the state as it is,
//! without a copy of it: the verdict is the first of the command's refusals that applies. The plan of
//! an accepted command lists the rows to remove and the rows to add. Once `State::make_room` has made
//! room for them, `State::commit` changes the state in place and can't fail. `State::of_rows` reads a
//! state from stored rows.
//!
//! # Example
//!
//! ```
//! use admin_mgr::State;
//! use rbac_sets::{Command, Name};
//! use std::test::Fail;
//!
//! fn a_command_is_planned_and_committed(rt: HostRuntime) -> Result<(), Fail> {
//!     let alloc = rt.alloc();
//!     let mut state = State::empty(alloc);
//!     let user = Name::new(alloc, "ann")?;
//!     let command = Command::AddUser { user };
//!     let plan = state.plan(alloc, &command)?;
//!     state.make_room(&plan)?;
//!     state.commit(plan);
//!     assert_eq!(rt; state.users().len(), 1);
//!     // The user exists now, so the same command is refused.
//!     assert!(rt; matches!(state.plan(alloc, &command), Err(refusal) if refusal.code() == 3));
//!     Ok(())
//! }
//! ```
#![tactic(auto)]

pub use plan::{Plan, Report};
pub use separation_of_duty::by_name::{is_reached, stands_alone};
pub use state::State;

mod checking;
mod judge;
pub mod laws;
mod limits;
mod lookup;
pub mod plan;
mod planning;
mod relations;
pub mod separation_of_duty;
pub mod state;
