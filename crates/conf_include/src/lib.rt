//! A configuration's text from its files: each `include` is replaced by the directives of the files that it names.
#![tactic(auto)]

mod include;
mod laws;
mod listing;
mod main_file;
mod mask;
mod open;
mod paths;
mod stop;

pub use laws::files_stand_whole;
pub use main_file::{ExpandError, Expanded, PlacedFault, expand};
pub use paths::folder_of;
