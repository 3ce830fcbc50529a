//! Media types of files by their extensions (nginx's `types` and `default_type`).
#![tactic(auto)]

mod path;
mod types;

pub use path::extension;
pub use types::{TypeEntry, Types};
