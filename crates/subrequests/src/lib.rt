//! The tree of a request and its subrequests
//! (<https://nginx.org/en/docs/dev/development_guide.html#http_subrequests>): each node goes on
//! with its phases, its file and its page by itself, and the bytes of all leave in the written
//! order.
#![tactic(auto)]

mod child;
mod ending;
mod family;
mod joining;
mod next_step;
mod opening;
mod past;
mod returning;
mod wants;

pub use family::{Decided, Family, Ran};
pub use node_line::{family_rest, request_phases};
