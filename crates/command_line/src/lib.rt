//! The program's command line: what its words ask for, and what the program says of itself.
#![tactic(auto)]

mod help;
mod turns;
mod words;

pub use help::{Topic, help_text, version_text};
pub use words::{Command, command_of};
