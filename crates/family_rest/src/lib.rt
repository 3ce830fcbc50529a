//! What is still to come of a family that any steps have led to, whatever trees answered them: each step keeps it, and what leaves
//! is what it begins with; and how many subrequests are still asked for. It has definitions, and laws of them.
#![tactic(auto)]

mod laws;

pub use laws::{quiet_is_exact, reached_stays_well, row_tells_still, steps_keep_still};
pub use race_meaning;
