//! Access by address: the rules of `allow` and `deny` (nginx's ngx_http_access_module).
#![tactic(auto)]

mod read;
mod rule;

pub use rule::{Rule, Source, allowed, decision};
