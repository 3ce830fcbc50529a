//! What the commands print: each connection of a run and the run's end, how many servers and locations a configuration has,
//! its variables that the race check names, and the faults of scripts and configurations.
#![tactic(auto)]

mod counts;
mod escapes;
mod faults;
mod kinds;
mod laws;
mod lines;
mod races;
mod report;
mod words;

pub use counts::counts_text;
pub use faults::{conf_fault_text, script_fault_text};
pub use laws::{printed_bytes_read_back, what_was_sent_is_read_back};
pub use races::{RaceReport, race_text};
pub use report::{ConnReport, ConnState, conn_text, end_text};
