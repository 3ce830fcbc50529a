//! One connection: its input and what is answered to it.
#![tactic(auto)]

mod body;
mod conn;
mod events;
mod input;
mod journal;
mod law;
mod open;
mod reading;
mod sending;
mod slot;
mod start;
mod times;
mod wants;

pub use conn::Conn;
pub use law::{
    connections_are_bounded, connections_are_exact, connections_are_sound, connections_pend_whole,
};
pub use response_flow::reply_out;
pub use served_site;
pub use times::{Awaited, Pace, Times};
pub use wants::next_want;
