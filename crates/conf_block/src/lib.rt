//! The directives of a level, each with its block: what a directive is by its name, what its block holds, and what the words
//! of `location` and `listen` say.
#![tactic(auto)]

mod branch;
mod listen;
mod location;
mod named;
mod role;

pub use branch::{Branch, blocks_stand_behind, first_branch};
pub use listen::{address_by, addresses, listens_of};
pub use location::{
    Key, Kind, alias_prefix, has_modifier, is_misplaced, is_plain, key_of, next_location, text_in,
};
pub use named::{has_named, http_in, next_named};
pub use role::{Content, are_directives, content_inside, place_of, role_of};
