//! Serves connections over links: a core, files, links and a clock are driven turn by turn.
#![tactic(auto)]

mod conns;
mod hear;
mod ids;
mod laws;
mod service;
mod ticks;
mod timed;
mod turn;

pub use laws::{closed_unended_sent_all, closed_unstopped_sent_all, kept_begins, starts_were_told};
pub use service::{Ending, serve};
pub use timed::TimedCore;
