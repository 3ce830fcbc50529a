//! The interface of body filters, and the chain that a body runs through (nginx's output filters).
#![tactic(auto)]

mod chain;
mod facts;
mod filter;
mod laws;
mod stage;

pub use chain::{Chain, ChainFault, ChainState, RefusedChain};
pub use facts::{Facts, FilterState};
pub use filter::{BodyFilter, push_part};
pub use laws::{chains_go_on, chains_turn};
pub use ssi_text;
pub use stage::Stage;
