//! What is sent for what the phases of a request decided: what the head of the response says, and its body, with what the body
//! filters are told of it.
#![tactic(auto)]

mod filters;
mod redirect;
mod reply;
mod status;

pub use reply::{Body, Reply, reply_of};
pub use request_phases;
pub use request_phases::rewrite_code;
