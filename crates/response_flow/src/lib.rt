//! The response to a main request from its head to its last byte: what its phases reply at once,
//! the blocks of a file, or a page of parts that it makes with its subrequests.
#![tactic(auto)]

mod answer;
mod flight;
mod law;
mod open;
mod run;
mod slot;
mod wants;

pub use answer::{answered, came, reads_alone};
pub use flight::{Flight, Onward, PageFlow, Passed, Ran, length_of, server_of};
pub use law::{shown_are_most, shown_end_whole};
pub use request_flow::{reply_out, request_opening};
pub use run::{run_in_place, run_on, start};
pub use wants::{ask, first_job, first_ready, is_ready, pending, written};
