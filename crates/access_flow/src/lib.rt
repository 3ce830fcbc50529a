//! A main request that asks a subrequest whether it is let in, and the phases of that subrequest
//! (<https://nginx.org/en/docs/http/ngx_http_auth_request_module.html>).
#![tactic(auto)]

mod begin;
mod flow;
mod run;
mod slot;

pub use begin::asks;
pub use flow::{AccessFlow, Stage, is_inner, may_run, waits};
pub use node_turn;
pub use run::{Ran, answered, run_on};
