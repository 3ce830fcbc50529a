//! Replay scripts as they are printed: the text of a script's parts reads back as them.
#![tactic(auto)]

mod laws;

pub use laws::printed_reads_back;
