//! Rewrite programs by the directives of a level: `set`, `if`, `rewrite`, `return` and `break`
//! (<https://nginx.org/en/docs/http/ngx_http_rewrite_module.html>), or the first that is wrong with them.
#![tactic(auto)]

mod condition;
mod directive;
mod part;
mod pattern;
mod program;
mod raw;
mod words;

pub use directive::{
    break_reading, if_reading, reading_by, return_reading, rewrite_reading, set_reading,
};
pub use pattern::step_in;
pub use program::{CompileError, Compiled, compile};
pub use raw::{RawCondition, RawPattern, RawStep, RawTest, Reading};
