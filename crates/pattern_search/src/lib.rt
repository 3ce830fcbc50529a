//! Searches for the patterns of a site: what they find, as the meaning of a site asks for it.
#![tactic(auto)]

mod search;

pub use search::{find_spans, groups_of};
pub use site_whole::site_model;
