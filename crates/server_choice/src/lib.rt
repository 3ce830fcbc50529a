//! Servers by name: which one answers a host at an address (https://nginx.org/en/docs/http/server_names.html).
#![tactic(auto)]

mod address;
mod choice;
mod longest;
mod names;
mod servers;

pub use choice::{Like, ServerNames};
pub use names::NameMap;
pub use servers::Servers;
