//! The configuration files of a script: its `conf` sections, as files that a configuration is read from.
#![tactic(auto)]

mod confs;
mod files;
mod paths;

pub use files::ConfFiles;
