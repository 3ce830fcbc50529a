//! Patterns: what makes them, and a set of them that is searched with (nginx's regular expressions, over the crate `regex`).
#![tactic(auto)]

mod engines;
mod expression;
mod maker;
mod makers;
mod set;
mod spans;

pub use expression::Expression;
pub use maker::{MakeFault, PatternMaker};
pub use makers::{CrateMaker, ListMaker};
pub use set::{PatternFault, PatternId, PatternSet};
pub use spans::Spans;
