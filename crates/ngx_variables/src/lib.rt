//! Texts with variables, the table of the variables that a configuration sets, and the data of a request of which
//! variables speak.
#![tactic(auto)]

mod argument;
mod compile;
mod eval;
mod fault;
mod field;
mod joining;
mod laws;
mod lone;
mod request;
mod value;
mod variable;

pub use argument::{without_first_spaces, without_last_spaces};
pub use compile::{Reference, lowercase, piece_named, reference_at};
pub use fault::{EvalFault, ValueFault};
pub use joining::{append_whole, drop_last_slash, joined};
pub use laws::{builtin_is_not_set, settles_behind_value, value_settles};
pub use req_head;
pub use request::{FileRoot, Groups, Main, Request, Role, method_name};
pub use value::{Piece, Value};
pub use variable::{Variable, is_builtin};
pub use variable_table::VarTable;
