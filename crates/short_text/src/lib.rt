//! Texts of at most 64 bytes in 24 bytes: the bytes of a short text are inside the value, and those of
//! a longer one in memory of its own.
#![tactic(auto)]

pub use front::front_of;
pub use short_text::{ShortText, Spare};

pub mod front;
pub mod short_text;
