//! The outside of the running program: the host's files, and what is printed. They meet the traits of the outside, and tell
//! nothing of what the host holds or takes.
#![tactic(auto)]

mod files;
mod kept;
mod looks;
mod room;
mod sink;

pub use files::HostFiles;
pub use sink::HostSink;
