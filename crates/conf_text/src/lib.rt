//! The text of a configuration file, read into its directives.
#![tactic(auto)]

mod directive;
mod fault;
mod law;
mod reader;
mod statement;
mod token;
mod word;

pub use directive::{Directive, Directives, split_block};
pub use fault::{ConfError, ConfFault, FaultKind};
pub use law::what_is_printed_is_read;
pub use reader::parse;
