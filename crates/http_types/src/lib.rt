//! Words of HTTP and of the network that every layer speaks: the ends of a connection, methods, versions, kinds of bodies.
#![tactic(auto)]

mod words;

pub use words::{Addr, BodyKind, Method, Version};
