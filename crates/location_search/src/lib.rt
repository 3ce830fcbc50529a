//! Locations: which one holds for a path (<https://nginx.org/en/docs/http/ngx_http_core_module.html#location>).
#![tactic(auto)]

mod build;
mod locations;
mod node;
mod search;

pub use locations::Locations;
pub use pattern_search;
pub use search::FoundLocation;
