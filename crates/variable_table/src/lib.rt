//! The table of the variables that a configuration sets: one for a main request and all its subrequests.
#![tactic(auto)]

mod stored;
mod table;

pub use table::{Setting, VarTable};
