//! What a main request starts with: its head, its connection and its moment, as its phases take
//! them up.
#![tactic(auto)]

mod asked;
mod slot;

pub use asked::{Opening, blank, put_phases};
