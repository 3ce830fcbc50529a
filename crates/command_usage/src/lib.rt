//! The command line as `clap` reads it: what it prints for `--help` and `--version`, and what is wrong with the words of one.
#![tactic(auto)]

mod texts;
mod usage;

pub use usage::{commands, tell_usage};
