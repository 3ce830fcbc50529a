//! The race check of a configuration: the variables that can show in which order the subrequests of a page ran, each with the
//! places of its directives.
#![tactic(auto)]

mod level;
mod lines;
mod named;
mod outer;
mod runs;
mod server;

pub use named::{FoundRaces, races};
pub use race_places;
