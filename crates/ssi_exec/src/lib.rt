//! The commands of a document of server side includes: what each part of it writes, which subrequests take its place,
//! and what it leaves of the document (nginx's ngx_http_ssi_module).
#![tactic(auto)]

mod asked;
mod blocks;
mod branches;
mod document;
mod includes;
mod next;
mod settings;
mod words;

pub use document::{Child, Document, Scene, Served};
pub use ssi_values;
