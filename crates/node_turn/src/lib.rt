//! The turns of one node of a request's tree
//! (<https://nginx.org/en/docs/dev/development_guide.html#http_subrequests>): its phases, its file,
//! its page. A turn is all that the node does by itself until it asks for a job, places bytes or
//! opens a subrequest.
#![tactic(auto)]

mod answered;
mod lending;
mod node;
mod page;
mod phase;
mod said;
mod slot;
mod turn;

pub use answered::Answered;
pub use lending::lend;
pub use node::{Body, Capture, Node, Place, Source, Stage};
pub use page_body::{ssi_exec, ssi_values};
pub use phase::answering;
pub use request_reply;
pub use request_reply::{request_phases, rewrite_code};
pub use said::Said;
pub use slot::{fill, put, take};
pub use turn::{Placed, Turn, fetches, needs_block, places, takes, turns, withhold, withholds};
pub use withheld_text::Withheld;
