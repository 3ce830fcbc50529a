//! The filter of additions: marks the places before and after a body (nginx's ngx_http_addition_module).
#![tactic(auto)]

mod filter;

pub use filter::AdditionFilter;
