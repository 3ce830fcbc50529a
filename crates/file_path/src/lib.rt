//! Where the files of a site are: the path of a file, by `root` or `alias` and a path of the site
//! (<https://nginx.org/en/docs/http/ngx_http_core_module.html#root>, `#alias`).
#![tactic(auto)]

mod laws;
mod locate;

pub use laws::{located_settles, paths_stay_in_root, settles_behind_located};
pub use locate::{path_of, path_under};
