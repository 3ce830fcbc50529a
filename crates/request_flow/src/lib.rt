//! A main request from its head to the last byte of its response: its phases, its reply, and the blocks of its file, one job
//! after another.
#![tactic(auto)]

mod blocks;
mod flow;
mod page;
mod run;
mod slot;
mod steps;

pub use blocks::Sending;
pub use family_rest;
pub use family_rest::race_meaning;
pub use flow::{Flow, Onward, Stage, length_of, may_run, server_of, shown_by, waits, wrote};
pub use page::{AccessStart, PageHead, PageStart, Went};
pub use reply_out;
pub use reply_out::{request_opening, request_phases};
pub use run::{answered, came, is_sending, run_on, sends_on};
pub use steps::{FileAt, Known, Replied, admits, start};
