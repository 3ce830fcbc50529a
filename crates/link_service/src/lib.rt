//! Serves one connection over links: what it wants is done, want by want, and the core is told what links and files answered.
#![tactic(auto)]

mod events;
mod jobs;
mod links;
mod wants;

pub use events::{opened, ticked, tree_told};
pub use wants::drain;
