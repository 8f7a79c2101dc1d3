//! Requests over HTTP: the one route, the head of a request and the answer to it, the body, and how a reply
//! is written.
//!
//! A request is `POST /v1/{function}` with a Content-Length; its body holds the arguments of the function.
#![tactic(auto)]

pub use answer::answer_head;
pub use body::read_bytes;
pub use read_error::ReadError;
pub use reply::write_reply;
pub use route::one_route;
pub use status::status_of;

pub mod answer;
pub mod body;
mod head;
mod head_checks;
pub mod laws;
pub mod read_error;
pub mod reply;
pub mod route;
pub mod status;
