//! Words that several languages write alike: decimal numbers, addresses, and cuts of a text at a byte.
#![tactic(auto)]

mod addresses;
mod cuts;
mod digits;
mod laws;

pub use addresses::{ipv4_of, ipv6_of};
pub use cuts::{before_byte, behind_byte, behind_colon, bytes_from, bytes_to, length_before};
pub use digits::{are_decimal, is_decimal, value_of};
pub use laws::addresses_are_texts;
