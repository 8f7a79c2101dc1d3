//! The functions that a request may call: their names, and how many bytes a call of each may have.
//!
//! # Example
//!
//! ```
//! use role_functions::Function;
//!
//! fn a_name_calls_a_function(rt: HostRuntime) {
//!     let called = Function::from_name("addUser");
//!     assert_eq!(rt; called, Some(Function::AddUser));
//!     assert_eq!(rt; Function::AddUser.longest_body(), 65_536);
//! }
//! ```
#![tactic(auto)]

pub use function::{Function, LONGEST_LINE};

pub mod function;
