//! The bytes of a body that are withheld, of which no more are kept than tell that it is too long for a variable.
#![tactic(auto)]

mod gone;
mod withheld;

pub use gone::Gone;
pub use withheld::Withheld;
