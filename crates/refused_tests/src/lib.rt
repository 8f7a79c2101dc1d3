//! Tests that pass whichever of their allocations fails: `commands` on a state, lines and a request (`requests`) on an
//! office in memory. tests/refused.sh of the repository runs them again and again, and in each run fails one
//! allocation, each in turn. It runs what `rt ci` has built, so these tests are proved. All others are built without
//! proof, in tests/office, tests/tables and tests/wire.
#![tactic(auto)]

#[cfg(test)]
mod command_parser;
#[cfg(test)]
mod commands;
#[cfg(test)]
mod requests;
