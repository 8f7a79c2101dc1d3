//! Directed graphs without cycles over the numbers below 8,192, such as those of roles. What the edges lead to is kept as one
//! row of bits for each number, so that it is known in constant time whether they lead from one number to another.
//!
//! # Example
//!
//! ```
//! use reach_bits::Reach;
//! use std::test::Fail;
//!
//! fn edges_lead_on(rt: HostRuntime) -> Result<(), Fail> {
//!     let mut reach = Reach::new(rt.alloc());
//!     reach.grow(100)?;
//!     reach.add(1, 2);
//!     reach.add(2, 99);
//!     assert!(rt; reach.leads(1, 99));
//!     reach.remove(1, 2);
//!     assert!(rt; !reach.leads(1, 99));
//!     Ok(())
//! }
//! ```
#![tactic(auto)]

pub use numbers::Numbers;
pub use reach::{MOST, Reach};
pub use row::Row;

pub mod numbers;
pub mod reach;
pub mod row;
pub(crate) mod rows;
pub(crate) mod settling;
pub(crate) mod word;
pub(crate) mod words;
