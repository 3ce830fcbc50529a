//! Texts with variables that name a path and its arguments, as `try_files` and `error_page` have them: what they evaluate
//! to, and what the meaning's acts of evaluating texts and of looking for files come to.
#![tactic(auto)]

mod laws;
mod target;

pub use file_path;
pub use laws::{fit_value_settles, item_settles, target_settles};
pub use ngx_variables;
pub use target::{Target, target_of};
