//! The response of a page of parts from its head to its last byte: the tree of its request and
//! subrequests, and the bytes that are written next, framed as they leave it in the written order
//! (RFC 9112, section 7.1).
#![tactic(auto)]

mod pages;

pub use pages::{Finished, Pages};
