//! A site as it is served: with what finds its servers and locations.
#![tactic(auto)]

mod served;

pub use served::ServedSite;
