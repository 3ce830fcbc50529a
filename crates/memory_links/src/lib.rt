//! Links in memory, for scripts and for tests: those to scripted peers, which tell what they answered, with a list of the
//! calls that are to fail.
#![tactic(auto)]

mod answers;
mod links;
mod peer;

pub use links::{LinkCall, MemoryLinks, ScriptedNotice};
