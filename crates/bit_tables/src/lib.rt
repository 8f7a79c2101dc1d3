//! Rows of bits and numbers by name, found by a keyed hash. A row of few numbers takes little memory.
//!
//! The hash is SipHash with a secret, so that nobody who chooses names can make them collide.
//!
//! # Example
//!
//! ```
//! use bit_tables::{BitTable, Seed};
//! use std::test::Fail;
//!
//! fn a_row_is_found(rt: HostRuntime) -> Result<(), Fail> {
//!     let alloc = rt.alloc();
//!     let mut table = BitTable::new(alloc, Seed::new(1, 2));
//!     table.put(alloc, "s1", 7)?;
//!     assert!(rt; table.row("s1").is_some());
//!     assert!(rt; table.row("s2").is_none());
//!     Ok(())
//! }
//! ```
#![tactic(auto)]

pub use number_table::NumberTable;
pub use numbers::Numbers;
pub use pair_table::PairTable;
pub use seed::Seed;
pub use table::BitTable;

pub mod number_table;
pub mod numbers;
pub mod pair_table;
pub mod seed;
pub mod table;
