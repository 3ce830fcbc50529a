// The framing of a body, into reserved room.
ghost use Rattle.std.specs.Prelude.{◌≡◌, ℕ, ◌+◌, ◌<◌, ◌≤◌, List, [], ◌++◌, length, vec_len, vec_capacity, Option, None, Some, IfOk, OnOk, if◌then◌else◌};
ghost use Rattle.outgoing.specs.Leaving.{framed_as, waiting, IsFull};
ghost use Rattle.outgoing.specs.Puts.{Puts};

use byte_text::OutOfMemory;
use chunk_out::ChunkState;
use std::alloc::Global;

/// The room that the end of a framed body needs.
const END_ROOM: usize = 4107;

/// The framing before the first byte of a body.
pub fn begun(alloc: Global, chunked: bool) -> Result<Option<ChunkState>, OutOfMemory>
    ensures { IfOk result (λ framing. framing ≡ (if chunked then Some [] else None)) }
{
    if !chunked {
        return Ok(None);
    }
    let chunks = ChunkState::new(alloc)?;
    Ok(Some(chunks))
}

/// Adds as many of the bytes as there is room for, and answers how many.
fn add_plain(out: &mut Vec<u8>, bytes: &[u8], room: usize) -> usize
    requires { vec_len out.old + room ≤ vec_capacity out.old }
    ensures within { result ≤ length bytes.now }
    ensures puts { Puts None bytes.now result None out.old.items out.new.items }
    ensures stops { result < length bytes.now → vec_len out.old + room ≤ vec_len out.new }
    ensures limit { vec_len out.new ≤ vec_len out.old + room }
    ensures capacity { vec_capacity out.old ≤ vec_capacity out.new }
{
    let count = bytes.len().min(room);
    // It takes no memory and can't fail: there is room.
    out.extend_from_slice(&bytes[..count]).unwrap();
    count
}

/// The same for a body in chunks.
fn add_chunks(chunks: &mut ChunkState, out: &mut Vec<u8>, bytes: &[u8], room: usize) -> usize
    requires { vec_len out.old + room ≤ vec_capacity out.old }
    ensures within { result ≤ length bytes.now }
    ensures puts { Puts (Some chunks.old) bytes.now result (Some chunks.new)
        out.old.items out.new.items }
    ensures waits { length chunks.new < 4096 }
    ensures stops { result < length bytes.now
        → IsFull (vec_len out.old + room) (Some chunks.new) (vec_len out.new) }
    ensures limit { vec_len out.new ≤ vec_len out.old + room }
    ensures capacity { vec_capacity out.old ≤ vec_capacity out.new }
{
    chunks.feed_within(bytes, out, room)
}

/// Adds as much of the body as so much room has place for, as it is framed, and answers how many
/// bytes it took.
pub fn add(framing: &mut Option<ChunkState>, out: &mut Vec<u8>, bytes: &[u8], room: usize) -> usize
    requires { vec_len out.old + room ≤ vec_capacity out.old }
    ensures within { result ≤ length bytes.now }
    ensures puts { Puts framing.old bytes.now result framing.new out.old.items out.new.items }
    ensures waits { waiting framing.new < 4096 }
    ensures stops { result < length bytes.now
        → IsFull (vec_len out.old + room) framing.new (vec_len out.new) }
    ensures limit { vec_len out.new ≤ vec_len out.old + room }
    ensures capacity { vec_capacity out.old ≤ vec_capacity out.new }
{
    match framing {
        Some(chunks) => add_chunks(chunks, out, bytes, room),
        None => add_plain(out, bytes, room),
    }
}

/// Adds the end of the body, and answers how many bytes it has.
pub fn end(framing: Option<ChunkState>, out: &mut Vec<u8>) -> Result<usize, OutOfMemory>
    ensures ends { OnOk result (out.new.items ≡ out.old.items ++ framed_as framing []) }
    ensures tail { IfOk result (λ tail. tail ≡ length (framed_as framing [])) }
    ensures len { vec_len out.old ≤ vec_len out.new }
{
    let Some(mut chunks) = framing else {
        return Ok(0);
    };
    let before = out.len();
    out.reserve(END_ROOM)?;
    chunks.end(out);
    Ok(out.len() - before)
}
