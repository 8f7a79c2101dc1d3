//! The reachability matrix of roles, by their numbers: for two roles, whether the first equals or
//! dominates the second. It is a view of the order, and read without a search.
//!
//! The number of a role is its place among the roles in byte order. The order itself, in role_order,
//! is queried by names, with a search for both names each time. A caller that queries it for many
//! roles looks up their numbers once, and then reads the matrix.
#![tactic(auto)]

pub use numbers::{number, second_numbers};
pub use table::OrderMatrix;

pub mod numbers;
pub mod table;
