//! Lines of configuration files: those of the directives that a level is made of.
#![tactic(auto)]

mod line;
mod order;

pub use line::{LevelLines, Line};
pub use order::in_order;
