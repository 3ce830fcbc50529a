// A body that is written in pieces.
ghost use Rattle.std.specs.Prelude.{◌≡◌, ℕ, ◌+◌, ◌<◌, ◌≤◌, List, [], ◌++◌, length, take, drop, vec_len, vec_capacity, IfOk, ◌==◌};
ghost use Rattle.chunk_out.specs.Chunks.{framed};
ghost use Rattle.chunk_out.specs.State.{Feeds};

use crate::write::{BLOCK, append, write_block, write_last, write_rest};
use byte_text::OutOfMemory;
use std::alloc::Global;
use std::marker::Model;

/// The room that `out` must have for a whole block: its size, its bytes and two line ends.
const WHOLE_ROOM: usize = 4104;

/// Writes each block that becomes whole, within so much room, and keeps the rest.
fn feed(block: &mut Vec<u8>, bytes: &[u8], out: &mut Vec<u8>, room: usize) -> usize
    requires waits { vec_len block.old < 4096 }
    requires kept { 4096 ≤ vec_capacity block.old }
    requires room { vec_len out.old + room ≤ vec_capacity out.old }
    ensures within { result ≤ length bytes.now }
    ensures waits { vec_len block.new < 4096 }
    ensures kept { 4096 ≤ vec_capacity block.new }
    ensures feeds { Feeds block.old.items bytes.now result block.new.items out.old.items
        out.new.items }
    ensures stops { result < length bytes.now
        → (vec_len block.new ≡ 4095) × (vec_len out.old + room < vec_len out.new + 4104) }
    ensures limit { vec_len out.new ≤ vec_len out.old + room }
    ensures capacity { vec_capacity out.old ≤ vec_capacity out.new }
{
    let mut rest = bytes;
    let mut left = room;
    while rest.len() >= BLOCK - block.len() && left >= WHOLE_ROOM {
        let (front, back) = rest.split_at(BLOCK - block.len());
        write_block(out, block.as_slice(), front);
        block.clear();
        rest = back;
        left -= WHOLE_ROOM;
    }
    let kept = rest.len().min(BLOCK - 1 - block.len());
    append(block, &rest[..kept]);
    bytes.len() - (rest.len() - kept)
}

/// Writes what waits and the last chunk.
fn finish(block: &mut Vec<u8>, out: &mut Vec<u8>)
    requires waits { vec_len block.old < 4096 }
    requires room { vec_len out.old + 4107 ≤ vec_capacity out.old }
    ensures items { out.new.items ≡ out.old.items ++ framed block.old.items }
    ensures empty { block.new.items ≡ [] }
    ensures len { vec_len block.new ≡ 0 }
    ensures kept { vec_capacity block.new ≡ vec_capacity block.old }
    ensures capacity { vec_capacity out.old ≤ vec_capacity out.new }
{
    if block.is_empty() {
        write_last(out);
        return;
    }
    write_rest(out, block.as_slice());
    block.clear();
    write_last(out);
}

/// Cuts a body into chunks of exactly 4096 bytes and a last one for the rest. Contracts see it as the list of the bytes
/// that wait for their block to become whole.
#[derive(Drop)]
pub struct ChunkState {
    block: Vec<u8>,
}

impl Model for ChunkState {
    ghost Value = { List ℕ };

    ghost view = { λ s. s.block.items };

    ghost invariant = { λ s. (vec_len s.block < 4096) × (4096 ≤ vec_capacity s.block) };
}

impl ChunkState {
    /// The state before the first byte. It takes the memory of one block, which serves every later call.
    pub fn new(alloc: Global) -> Result<ChunkState, OutOfMemory>
        ensures { IfOk result (λ state. state ≡ []) }
    {
        let block = Vec::with_capacity(alloc, BLOCK)?;
        Ok(ChunkState { block })
    }

    /// Whether no byte waits.
    pub fn is_empty(&self) -> bool
        ensures { result ≡ (length self.now == 0) }
    {
        self.block.is_empty()
    }

    /// Takes the next bytes of the body, and answers how many it took. A block that becomes whole is written to `out`
    /// as a chunk, where `out` has room for it: 4104 bytes, of which none is ever taken anew. Where it has less, no
    /// byte is taken from the one on that would make a block whole.
    pub fn feed(&mut self, bytes: &[u8], out: &mut Vec<u8>) -> usize
        ensures within { result ≤ length bytes.now }
        ensures waits { length self.new < 4096 }
        ensures feeds { Feeds self.old bytes.now result self.new out.old.items out.new.items }
        ensures stops { result < length bytes.now
            → (length self.new ≡ 4095) × (vec_capacity out.old < vec_len out.new + 4104) }
        ensures limit { vec_len out.new ≤ vec_capacity out.old }
        ensures capacity { vec_capacity out.old ≤ vec_capacity out.new }
    {
        let room = out.capacity() - out.len();
        feed(&mut self.block, bytes, out, room)
    }

    /// The same, where at most `room` bytes may be added to `out`.
    pub fn feed_within(&mut self, bytes: &[u8], out: &mut Vec<u8>, room: usize) -> usize
        requires { vec_len out.old + room ≤ vec_capacity out.old }
        ensures within { result ≤ length bytes.now }
        ensures waits { length self.new < 4096 }
        ensures feeds { Feeds self.old bytes.now result self.new out.old.items out.new.items }
        ensures stops { result < length bytes.now
            → (length self.new ≡ 4095) × (vec_len out.old + room < vec_len out.new + 4104) }
        ensures limit { vec_len out.new ≤ vec_len out.old + room }
        ensures capacity { vec_capacity out.old ≤ vec_capacity out.new }
    {
        feed(&mut self.block, bytes, out, room)
    }

    /// Ends the body: writes the bytes that wait as a chunk, where there are any, and the last chunk. `out` has 4107
    /// bytes of room. The state is then that before the first byte of another body.
    pub fn end(&mut self, out: &mut Vec<u8>)
        requires { vec_len out.old + 4107 ≤ vec_capacity out.old }
        ensures items { out.new.items ≡ out.old.items ++ framed self.old }
        ensures empty { self.new ≡ [] }
        ensures capacity { vec_capacity out.old ≤ vec_capacity out.new }
    {
        finish(&mut self.block, out);
    }
}
