//! A core that does as the one within does, whichever that is, and keeps the events that it is given, so that a run over it
//! can be told.
#![tactic(auto)]

mod event;
mod telling;

pub use event::GivenEvent;
pub use telling::TellingCore;
