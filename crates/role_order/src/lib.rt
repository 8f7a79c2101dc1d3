//! The role hierarchy: a set of edges without a cycle, and its closure, which is updated with each
//! edge.
//!
//! An edge (r, q) says that r is an immediate ascendant of q. The order `r >= q` holds if r is q, or
//! if edges lead from r to q. The roles of edges have numbers, and for each number there is a row of
//! bits that says to which numbers the edges lead, so that it takes a search for two numbers to know
//! whether a role inherits from another. The pairs of two different roles are also kept in byte order.
//! A change of an edge is planned first: a plan lists the pairs that the order gains and loses, which it
//! reads from the bits.
#![tactic(auto)]

pub use order::RoleOrder;
pub use places::OrderOfNames;
pub use plan::OrderPlan;

mod building;
pub mod laws;
mod numbered;
pub mod order;
pub mod places;
pub mod plan;
