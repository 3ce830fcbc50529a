//! The response to what a request is replied, put for the peer: its head, and its body where that
//! isn't a file; and what requests work with, one after another.
#![tactic(auto)]

mod heads;
mod reply;
mod room;
mod slot;
mod terms;

pub use reply::{Workspace, head_alone, put_refusal, put_reply, stays};
pub use request_opening;
pub use request_reply;
pub use request_reply::request_phases;
pub use room::OutRoom;
pub use terms::{InPhases, Terms};
