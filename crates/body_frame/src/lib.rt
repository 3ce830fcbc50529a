//! The bodies after request heads: where one ends in the bytes that come (RFC 9112, sections 6 and 7.1).
#![tactic(auto)]

mod laws;
mod place;
mod state;
mod step;

pub use laws::{bodies_are_the_grammars, bodies_go_on, bodies_stay, takes_compose};
pub use state::BodyState;
pub use step::BodyStep;
