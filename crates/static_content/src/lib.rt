//! What is answered for what is at a URI's path, as nginx's static module does it
//! (<https://nginx.org/en/docs/http/ngx_http_core_module.html>).
#![tactic(auto)]

mod content;

pub use content::{Content, decide, refusal_of};
