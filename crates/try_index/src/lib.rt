//! Names that are tried in turn: those of `try_files` and of `index`
//! (<https://nginx.org/en/docs/http/ngx_http_core_module.html#try_files>, ngx_http_index_module.html). A search is suspended
//! at each question to the files, and is asked again with the answer; a name is evaluated at its turn.
#![tactic(auto)]

mod index;
mod probe;
mod tries;

pub use index::{IndexState, IndexStep, default_index};
pub use probe::Scene;
pub use target_text;
pub use tries::{TryState, TryStep};
