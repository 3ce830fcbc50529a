//! The nodes of a request and its subrequests by their numbers, what is known of each, and how one
//! is told what it asked for.
#![tactic(auto)]

mod hear;
mod nodes;
mod runs;

pub use hear::hears;
pub use nodes::Nodes;
pub use runs::{can_run, is_waiting};
