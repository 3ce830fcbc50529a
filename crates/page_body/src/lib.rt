//! The body of a page on which filters act, worked off block by block: blocks of its file come, the filters of server side
//! includes and of additions make parts of them, and each part is done by the page's document. No page is held whole.
#![tactic(auto)]

mod doing;
mod laws;
mod page;
mod parts;
mod plain;

pub use doing::Doing;
pub use laws::{reading_settles, writing_settles};
pub use ngx_variables;
pub use page::Page;
pub use plain::is_plain;
pub use ssi_exec;
pub use ssi_exec::ssi_values;
