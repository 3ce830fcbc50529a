//! The lists of values that the directives of a level state: the names of a server and its default addresses, index names,
//! names that are tried, pages of errors, rules of access, and media types of filters.
#![tactic(auto)]

mod hosts;
mod lists;
mod stated;
mod words;

pub use hosts::{defaults_of, first_shown, plain_name};
pub use lists::LevelLists;
pub use stated::stated_lists;
pub use words::{tries_of, variables_in};
