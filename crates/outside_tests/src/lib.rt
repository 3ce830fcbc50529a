//! Tests of the outside, in memory, on the host and over sockets, and of what works over it: includes and the loop.
#![tactic(auto)]

#[cfg(test)]
mod host;
#[cfg(test)]
mod includes;
#[cfg(test)]
mod memory;
#[cfg(test)]
mod plain;
#[cfg(test)]
mod serving;
#[cfg(test)]
mod sockets;
