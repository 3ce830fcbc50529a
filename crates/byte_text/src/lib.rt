//! Texts of bytes: a text that is read, and a queue whose bytes come at the end and leave at the front.
#![tactic(auto)]

mod memory;
mod queue;
mod text;
mod texts;

pub use memory::OutOfMemory;
pub use queue::ByteQueue;
pub use text::ByteText;
pub use texts::ByteTexts;
