//! Where the variables are set and read that the race check names: their lines, by those of a server's levels.
#![tactic(auto)]

mod index;
mod lined;
mod marks;
mod places;
mod reads;
mod told;

pub use lined::{LineList, LinedLevel, ServerLines, StatedLines};
pub use told::{Conflict, placed};
