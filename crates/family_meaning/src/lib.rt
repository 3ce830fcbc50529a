//! A main request and its subrequests, each suspended somewhere: what is placed, what each still does, and what is still to
//! come of the response. It has definitions, and laws of them.
#![tactic(auto)]

mod laws;

pub use laws::{begins_whole, first_steps_are_exact, order_is_no_matter};
