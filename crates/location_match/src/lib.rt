//! The texts of locations: which of them is a path, and which is the longest prefix of it
//! (<https://nginx.org/en/docs/http/ngx_http_core_module.html#location>).
#![tactic(auto)]

mod list;
mod prefixes;
mod steps;
mod texts;

pub use list::Prefixes;
pub use prefixes::{PrefixEntry, entry_at, longest_in};
pub use steps::Steps;
pub use texts::NumberedText;
