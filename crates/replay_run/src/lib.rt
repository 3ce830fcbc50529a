//! Runs a script's lines on a core, one after another, over the files of the script, and keeps what waits to arrive and what
//! was emitted.
#![tactic(auto)]

mod jobs;
mod lane;
mod lines;
mod player;
mod serve;
mod tree;

pub use lane::{InputEnd, Lane, LinkEnds};
pub use lines::{Counts, run_lines};
pub use player::Player;
pub use tree::files_of;
