//! The phases of a request over the whole site
//! (<https://nginx.org/en/docs/dev/development_guide.html#http_phases>): from its head, or a change, to what is answered,
//! suspended at each question to the files and at each subrequest that decides on access.
#![tactic(auto)]

mod access;
mod admission;
mod content;
mod decide;
mod ground;
mod lists;
mod locate;
mod rounds;
mod state;

pub use admission::admit;
pub use ground::Ground;
pub use ngx_variables;
pub use ngx_variables::req_head;
pub use rewrite_code;
pub use rounds::{begin, resume};
pub use site_model;
pub use state::{Conclusion, Handled, Phases, Step, Wait};
pub use try_index;
