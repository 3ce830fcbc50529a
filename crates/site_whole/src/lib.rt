//! A site in its whole shape, as the recursive meaning sees it. It has definitions and no code.
#![tactic(auto)]

pub use site_model;
