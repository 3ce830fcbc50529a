//! The directives that a configuration may hold, and the places and words of each.
#![tactic(auto)]

mod role;
mod rule;
mod table;

pub use role::{Listing, Role, Setting, Switch, Time};
pub use rule::{Context, Contexts, DirectiveRule};
pub use table::entry;
