//! The first fault of a configuration, in the order of its text, its regular expressions too.
#![tactic(auto)]

mod before;
mod ends;
mod error;
mod fault;
mod first;
mod levels;
mod locations;
mod names;
mod patterns;

pub use error::ReadError;
pub use first::{check, names_in};
pub use patterns::{name_pattern, regex_case};
