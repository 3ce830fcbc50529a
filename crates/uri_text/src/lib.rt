//! Request targets: the path and the arguments that a target names, and a path written with escapes.
#![tactic(auto)]

mod escape;
mod fault;
mod front;
pub mod laws;
mod path;
mod segment;
mod target;

pub use escape::escaped;
pub use fault::UriFault;
pub use target::{AbsoluteForm, absolute_form, is_target, normal};
