//! The filter of server side includes: splits a document into its text and its commands (nginx's ngx_http_ssi_module).
#![tactic(auto)]

mod filter;

pub use filter::SsiFilter;
