//! Rewrite programs (https://nginx.org/en/docs/http/ngx_http_rewrite_module.html): run for a request up to each test of a file,
//! and resumed with what is at its path.
#![tactic(auto)]

mod condition;
mod groups;
mod place;
mod program;
mod quick;
mod step;
mod target;
mod text;
mod turn;

pub use place::{Ending, Progress, RunStep, Setting};
pub use program::{resume, run};
