//! The values of directives: numbers, times, addresses, texts with variables, choices, and what `return` answers; and whether
//! the words of a directive are values of it.
#![tactic(auto)]

mod address;
mod host;
mod listing;
mod number;
mod returned;
mod settings;
mod source;
mod text;
mod text_set;
mod variable;
mod word;

pub use address::{has_known_parameters, is_marked, listened_by, wildcard};
pub use listing::are_listed;
pub use number::{count_of, time_of};
pub use returned::{Form, code_of, form_of, is_return, return_by};
pub use settings::{Settings, are_values};
pub use site_model;
pub use source::source_of;
pub use text::{is_folder_text, is_text, value_of};
pub use text_set::TextSet;
pub use variable::{lowercase, variable_in};
pub use word::{begins_with, rest_of};
