//! The head of a response, and the phrase of each status.
#![tactic(auto)]

mod head;
mod laws;
mod lines;
mod phrases;
mod values;

pub use head::{HeadWriter, ReplyHead, head_text};
pub use laws::{head_is_whole, head_reads_back};
pub use phrases::{page_phrase, phrase};
