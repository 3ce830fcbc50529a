//! The values of a document of server side includes: what its names mean, texts with variables, conditions and encodings
//! (nginx's ngx_http_ssi_module).
#![tactic(auto)]

mod conditions;
mod dated;
mod encodings;
mod laws;
mod names;
mod sight;
mod table;
mod values;

pub use conditions::{Truth, condition};
pub use encodings::encoded;
pub use laws::{filled_settles, named_settles, truth_settles};
pub use ngx_variables::lowercase;
pub use sight::Sight;
pub use table::Table;
pub use values::{filled, is_of_itself, named_value};
