//! nginx's built-in page of an error.
#![tactic(auto)]

mod laws;
mod page;

pub use laws::page_has_length;
pub use page::{page_len, page_text};
