//! An office in memory, for C: a handle, answers to lines of JSON, access decisions, and rows to save and to load.
//!
//! This is the proved part of the library librbac. library/rbac.c refuses null pointers before it calls these functions.
#![tactic(auto)]

pub mod calls;
mod conflicts;
mod copying;
mod detached;
pub mod explaining;
mod handle;
mod range;
