//! What a request comes to: the meaning of serving it, over a whole tree of files. It has definitions, and laws of them.
#![tactic(auto)]

mod laws;

pub use file_path;
pub use laws::{alone_asks_none, changes_fall, node_is_meant, subrequests_nest};
