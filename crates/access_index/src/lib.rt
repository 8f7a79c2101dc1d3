//! An index for decisions: what a session's or a user's roles are granted, by numbers.
//!
//! Each role has a number, and sets of roles are rows of bits. The index has a row for each session, of the roles that were
//! activated in it, one for each user, of the assigned roles, one for each permission, of the roles that it is granted to, and
//! two for each role, of its juniors and of its seniors. A decision looks up two rows and compares bits. A change of one row of a
//! state changes one bit or two. Only the row of the barred roles is built anew, after a change of the role hierarchy or of a
//! dynamic separation of duty set. There is a row for each set too: a change of a set counts that set again, and a change of the
//! hierarchy all of them. A user with many assigned roles has one more row, of the roles that the user is authorized for. It is
//! counted anew after a change of the user's assignments or of the hierarchy.
//!
//! # Example
//!
//! ```
//! use access_index::AccessIndex;
//! use bit_tables::Seed;
//! use rbac_sets::{Name, Row};
//! use std::test::Fail;
//!
//! fn a_senior_has_what_its_junior_is_granted(rt: HostRuntime) -> Result<(), Fail> {
//!     let alloc = rt.alloc();
//!     let mut rows = Vec::new(alloc);
//!     let session = Name::new(alloc, "s1")?;
//!     rows.push(Row::activated_role(session, Name::new(alloc, "chief")?))?;
//!     let (chief, clerk) = (Name::new(alloc, "chief")?, Name::new(alloc, "clerk")?);
//!     rows.push(Row::PairRow(Row::CLOSURE_PAIR, chief, clerk))?;
//!     let (safe, open) = (Name::new(alloc, "safe")?, Name::new(alloc, "open")?);
//!     rows.push(Row::grant(safe, open, Name::new(alloc, "clerk")?))?;
//!     let index = AccessIndex::of_rows(alloc, Seed::new(1, 2), &rows)?;
//!     assert!(rt; index.find("s1", "open", "safe") == Some(true));
//!     assert!(rt; index.find("s1", "close", "safe") == None);
//!     Ok(())
//! }
//! ```
#![tactic(auto)]

pub use index::AccessIndex;

mod authorizing;
mod barring;
pub mod changing;
pub mod finding;
pub mod index;
