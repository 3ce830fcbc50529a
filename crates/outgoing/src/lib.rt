//! The bytes of a response that are written next, in room that is reserved, and the framing of a
//! body whose length isn't known at its head (RFC 9112, section 7.1).
#![tactic(auto)]

mod framing;
mod response;

pub use response::Outgoing;
