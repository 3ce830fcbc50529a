//! The race check: the variables that can show in which order the subrequests of a page ran, by the definition of
//! race_meaning. Each part of it is one pass over a server's directives, which keeps names in sets; the lists that servers share
//! have sets of their own, made once.
#![tactic(auto)]

mod conflict;
mod first;
mod items;
mod levels;
mod listed;
mod marks;
mod names;
mod reads;
mod same;
mod texts;
mod values;

pub use conflict::{Named, named_in};
pub use first::{FirstLists, first_lists};
pub use items::{step_names, target_names, text_names, tries_names};
pub use levels::{block_numbers, level_numbers};
pub use listed::ListKind;
pub use names::NameSet;
pub use values::{auth_sets_of, index_names, place_text, rules_of};
