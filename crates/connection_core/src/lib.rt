//! The core: all connections, each under its number.
#![tactic(auto)]

mod hub;
mod law;
mod place;
mod table;

pub use http_connection::served_site;
pub use hub::Hub;
pub use law::cores_are_sound;
