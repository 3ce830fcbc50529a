//! What the engine meets: files, links, a clock and a sink, each with a count of its faults; and the contract of a core, by
//! what its events do.
#![tactic(auto)]

mod engine;
mod event;
mod files;
mod laws;
mod links;
mod sink;

pub use engine::EventCore;
pub use event::{Entry, Event, StepAnswer, StopCause, Want};
pub use files::{FileFault, Files, Listing, Look};
pub use laws::{
    all_is_logged_when_idle, all_is_sent_when_idle, all_is_sent_when_shut, shut_is_exact,
    steps_keep_track, stops_keep_track, tracks_begin, tracks_narrow,
};
pub use links::{Clock, Input, Links, Notice, Output};
pub use sink::{Failed, Sink};
