//! Where the nodes of a request's tree are: in the row of their family; or in a line of their own, or of a node that
//! waits for their bytes (<https://nginx.org/en/docs/http/ngx_http_ssi_module.html>, `set` and `stub`).
#![tactic(auto)]

mod joining;
mod seats;

pub use joining::{inner_nodes, shown_by};
pub use seats::{comes_beside, is_seated, is_withheld, next_inner};
