//! Serves a site over links: a new core of it, driven turn by turn.
#![tactic(auto)]

mod ends;
mod service;

pub use connection_core;
pub use connection_core::served_site;
pub use service::{CheckedSite, serve_site};
