//! Where errors go: which rule of `error_page` applies to an error, and what it comes to
//! (<https://nginx.org/en/docs/http/ngx_http_core_module.html#error_page>). The built-in page is error_page's.
#![tactic(auto)]

mod page;
mod rule;

pub use page::{PageStep, page_for};
pub use rule::Handling;
