//! Replay scripts: a text of lines that names a configuration, a tree of files and the events of a run.
#![tactic(auto)]

mod entries;
mod faults;
mod heads;
mod parts;
mod places;
mod reading;
mod sections;

pub use faults::{ScriptError, ScriptFault};
pub use parts::{Conf, Confs, EventLine, EventLines, Script, TreeLine, TreeLines};
pub use reading::read;
pub use replay_words::FaultKind;
