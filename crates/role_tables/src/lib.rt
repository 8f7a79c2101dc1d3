//! An office in one SQLite file: its tables, opening it, and doing commands.
//!
//! `create` creates the tables of an empty office, `open` reads the state that they hold, `migrate` opens an
//! office of version 1 in version 2, and `Office::apply` does a command: it is judged and planned on the
//! state in memory, its changes of rows are written in one transaction, and then the state in memory is
//! changed. Whenever it crashes, the tables hold the state before the command or the state after it.
//! The crate works over any store of `sqlite`, a file or memory.
//!
//! # Which contract to read first
//!
//! 1. `Office::apply`: `answers` says what a command answers and what the state is then, `done`, `undone` and
//!    `crash` what the tables hold.
//! 2. `open`: `ok` says which state an opening gives, and `err` of which contents an opening is refused.
//! 3. `laws::recovers`, the headline theorem, over the events that calls add to a run of an office. The laws
//!    before it are the steps of its argument.
//!
//! # How data flows
//!
//! `open` reads the rows of each table, judges them, and makes a `State` of them. `apply` asks this state for a
//! plan, writes the plan's changes of rows in one transaction, and then commits the plan to the state.
//!
//! # Example
//!
//! ```
//! use rbac_sets::{Command, Name};
//! use role_tables::{create, open};
//! use sqlite::Connection;
//! use std::test::Fail;
//!
//! fn an_opening_finds_what_was_done(rt: HostRuntime) -> Result<(), Fail> {
//!     let alloc = rt.alloc();
//!     let conn = Connection::open_in_memory(alloc)?;
//!     let Ok(mut office) = create(alloc, conn) else {
//!         return Err("not made")?;
//!     };
//!     let user = Name::new(alloc, "ann")?;
//!     office.apply(alloc, &Command::AddUser { user })?;
//!     let Ok(again) = open(alloc, office.into_connection()) else {
//!         return Err("not opened")?;
//!     };
//!     assert_eq!(rt; again.state()?.users().len(), 1);
//!     Ok(())
//! }
//! ```
#![tactic(auto)]

pub use creating::{create, create_v1};
pub use migrating::migrate;
pub use office::Office;
pub use opening::{Unopened, open};

mod content_checks;
pub mod creating;
mod gathering;
pub mod laws;
mod meta_rows;
pub mod migrating;
pub mod office;
pub mod opening;
mod schema;
mod statements;
mod stored_table;
mod values;
mod writing;
