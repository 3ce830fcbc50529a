//! A node of a request's tree, in the row of its family or in a line of its own
//! (<https://nginx.org/en/docs/http/ngx_http_ssi_module.html>, `stub`): what it still does there,
//! and how a subrequest with a stub comes to show its body or the stub.
#![tactic(auto)]

mod stub;

pub use family_rest;
pub use node_turn;
pub use node_turn::{request_phases, rewrite_code, ssi_exec, ssi_values};
pub use stub::{comes, decides, has_bytes, is_good};
