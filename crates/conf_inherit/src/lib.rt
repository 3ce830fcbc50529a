//! The site that the directives of a configuration describe.
#![tactic(auto)]

mod entries;
mod laws;
mod level;
mod names;
mod pool;
mod shared;
mod shelf;
mod site;

pub use conf_check;
pub use laws::{the_last_holds, what_is_around_holds, what_is_stated_holds};
pub use site::{Built, build};
