//! The order of a response: subrequests answer in any order, and their bytes leave in the written order.
#![tactic(auto)]

mod laws;
mod node;
mod order;
mod part;

pub use laws::tree_order;
pub use order::Order;
