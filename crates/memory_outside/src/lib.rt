//! The outside in memory, for scripts and for tests: files of which every version is kept, a sink, and clocks. Files and
//! sinks have lists of the calls that are to fail.
#![tactic(auto)]

mod answers;
mod clocks;
mod files;
mod names;
mod sink;

pub use answers::{Answers, FileTold};
pub use clocks::{FixedClock, ListClock};
pub use files::{FileCall, MemoryFiles, StoredItem};
pub use sink::MemorySink;
