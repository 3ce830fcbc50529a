//! The program: its commands, over any files, links, clock and output.
#![tactic(auto)]

mod check;
mod command;
mod help;
mod laws;
mod script;
mod site;
mod status;
mod text;

pub use command::ngx;
pub use laws::folders_have_their_names;
pub use script::{ScriptOutcome, replay};
pub use site::{ReadSite, SiteError, site_at};
pub use status::Status;
