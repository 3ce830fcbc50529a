//! The chunked transfer coding of a body that is written in pieces (RFC 9112, section 7.1).
#![tactic(auto)]

mod laws;
mod state;
mod write;

pub use laws::{chunks_are_a_body, feeds_compose, sizes_are_chunk_lines};
pub use state::ChunkState;
