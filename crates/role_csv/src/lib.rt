//! Assignments of users to roles as CSV: reads the pairs that a text lists, and writes the assignments
//! of a state as text.
//!
//! # Example
//!
//! ```
//! use role_csv::read_assignments;
//! use std::test::Fail;
//!
//! fn a_record_is_a_user_and_a_role(rt: HostRuntime) -> Result<(), Fail> {
//!     let pairs = read_assignments(rt.alloc(), b"user,role\r\nann,\"clerk\"\r\n")?;
//!     assert_eq!(rt; pairs.len(), 1);
//!     assert!(rt; pairs.iter().all(|pair| pair.0.as_str() == "ann" && pair.1.as_str() == "clerk"));
//!     Ok(())
//! }
//! ```
#![tactic(auto)]

pub use reading::read_assignments;
pub use writing::write_assignments;

pub mod laws;
pub mod reading;
mod records;
pub mod writing;
