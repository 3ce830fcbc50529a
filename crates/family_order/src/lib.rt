//! A family in its row: each step of a node, with what it does to the row in which the bytes wait, is a step of the
//! line that the row shows. So bytes leave in the order of the response, in whatever order the nodes go on. It has
//! definitions, and laws of them.
#![tactic(auto)]

mod laws;

pub use laws::{order_is_kept, row_shows_line, row_stays_well, row_tells_line, shows_the_same};
pub use race_meaning;
