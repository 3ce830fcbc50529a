//! The requests that were started on a connection, each with what was logged of it: told where they are kept, and else known to
//! the proofs alone, so that they take no room.
#![tactic(auto)]

mod journal;
mod past;

pub use journal::Journal;
pub use past::{Note, Past};
