//! A plain core of one connection, for tests and as the smallest program that keeps the contract of a core: each line that
//! arrives is a request, and each is answered by one fixed text.
#![tactic(auto)]

mod conn;
mod lines;
mod plain;
mod state;

pub use plain::PlainCore;
