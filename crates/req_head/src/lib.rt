//! Reads the head of a request (RFC 9112).
#![tactic(auto)]

mod fields;
mod find;
mod head;
mod host;
mod host_bytes;
mod known;
mod laws;
mod lines;
mod options;
mod room;
mod rules;
mod values;

pub use fields::HeadFields;
pub use head::{Head, HeadStep, read_head, read_head_in};
pub use laws::{awaits_first, full_decides, grammar_decides, head_stays, refusal_stays, size_fits};
pub use lines::may_decide;
pub use room::HeadRoom;
pub use values::FieldValues;
