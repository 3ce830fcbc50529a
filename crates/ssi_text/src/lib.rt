//! A document of server side includes, split into its text and its commands (nginx's ngx_http_ssi_module).
#![tactic(auto)]

mod command;
mod laws;
mod name;
mod part;
mod place;
mod read;
mod scan;
mod state;

pub use laws::{pieces_make_no_difference, what_is_undecided_is_open};
pub use name::Name;
pub use part::{Param, Params, Part};
pub use scan::is_text;
pub use state::SsiState;
