//! Requests and answers as JSON texts: what a line or a body asks for, and the text that answers it.
//!
//! # Example
//!
//! ```
//! use rbac_sets::Command;
//! use role_json::{Request, Verdict, answer_text, read_request};
//! use std::test::Fail;
//!
//! fn a_line_is_read_and_answered(rt: HostRuntime) -> Result<(), Fail> {
//!     let alloc = rt.alloc();
//!     let request = read_request(alloc, br#"{"fn":"addUser","user":"ann"}"#)?;
//!     assert!(rt; matches!(request,
//!         Request::Change(Command::AddUser { user }) if user.as_str() == "ann"));
//!     let text = answer_text(alloc, &Verdict::Done)?;
//!     assert_eq!(rt; text.as_str(), r#"{"ok":true}"#);
//!     Ok(())
//! }
//! ```
#![tactic(auto)]

pub use answer::{Verdict, answer_text};
pub use request::{Request, body_to, read_body, read_request};
pub use role_functions::{Function, LONGEST_LINE};

pub mod answer;
mod calls;
mod fields;
pub mod laws;
pub mod request;
