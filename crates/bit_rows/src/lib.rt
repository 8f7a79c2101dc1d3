//! Rows of bits: sets of numbers below 8,192, such as those of roles. Whether two sets have a number in common is decided word
//! by word. A row has as many words as its greatest number needs.
//!
//! # Example
//!
//! ```
//! use bit_rows::BitRow;
//! use std::test::Fail;
//!
//! fn two_rows_meet(rt: HostRuntime) -> Result<(), Fail> {
//!     let mut held = BitRow::new(rt.alloc());
//!     held.put(7)?;
//!     held.put(900)?;
//!     let mut granted = BitRow::new(rt.alloc());
//!     granted.put(900)?;
//!     assert!(rt; held.meets(&granted));
//!     assert!(rt; held.next(8) == Some(900));
//!     Ok(())
//! }
//! ```
#![tactic(auto)]

pub use row::{BitRow, WIDTH};

pub mod row;
pub mod word;
pub mod words;
