// The bytes of a response that are written next.
ghost use Rattle.std.specs.Prelude.{◌≡◌, ℕ, ◌+◌, ◌*◌, ◌<◌, ◌≤◌, List, [], ◌++◌, length, take, drop, vec_len, vec_capacity, None, Some, is_some, IfOk, OnOk, OnErr, if◌then◌else◌};
ghost use Rattle.outgoing.specs.Leaving.{Leaving, IsFull, framed_as, most, to_come, waiting};

use crate::framing::{add, begun, end};
use byte_text::{ByteQueue, OutOfMemory};
use chunk_out::ChunkState;
use std::alloc::Global;
use std::marker::Model;
use std::mem::swap;

/// How many bytes may be pending, but for those of `put_all`.
const MOST: usize = 65536;

/// The room of the buffer. Bytes are moved down only where at least as many were written before them: so each byte is
/// moved a bounded number of times, and the room after them is enough.
const ROOM: usize = 131072;

/// Moves the bytes from `start` on down to the beginning, where they are no more than those before
/// them, and answers where they begin then.
fn moved_down(bytes: &mut Vec<u8>, start: usize) -> usize
    requires { start ≤ vec_len bytes.old }
    ensures items { drop result bytes.new.items ≡ drop start bytes.old.items }
    ensures len { vec_len bytes.new + start ≡ vec_len bytes.old + result }
    ensures low { result + result ≤ vec_len bytes.new }
    ensures capacity { vec_capacity bytes.new ≡ vec_capacity bytes.old }
{
    let len = bytes.len();
    if start < len - start {
        return start;
    }
    bytes.copy_within(start..len, 0);
    bytes.truncate(len - start);
    0
}

/// A buffer with the head of a response, in this room as far as it goes.
fn reserved(head: &[u8], room: Vec<u8>) -> Result<Vec<u8>, OutOfMemory>
    ensures items { IfOk result (λ bytes. bytes.items ≡ head.now) }
    ensures small { IfOk result (λ bytes. length head.now ≤ most) }
    ensures room { IfOk result (λ bytes. 131072 ≤ vec_capacity bytes) }
{
    if head.len() > MOST {
        return Err(OutOfMemory);
    }
    let mut bytes = room;
    bytes.clear();
    bytes.reserve(ROOM)?;
    bytes.extend_from_slice(head)?;
    Ok(bytes)
}

/// The bytes of a response that are written next, and the framing of the bytes of its body that
/// come after them. Contracts see the bytes that are pending, and the bytes of the body that wait
/// for their block to become whole (`Leaving`).
#[derive(Drop)]
pub struct Outgoing {
    bytes: Vec<u8>,
    start: usize,
    framing: Option<ChunkState>,
}

impl Model for Outgoing {
    ghost use Rattle.std.specs.Prelude.{drop, vec_len, vec_capacity};
    ghost use Rattle.outgoing.specs.Leaving.{Leaving};
    ghost use Rattle.outgoing.specs.Puts.{IsReserved};

    ghost Value = { Leaving };

    ghost view = { λ o. record { pending = drop o.start o.bytes.items; block = o.framing } };

    ghost invariant = { λ o.
        IsReserved o.start (vec_len o.bytes) (vec_capacity o.bytes) o.framing };
}

impl Outgoing {
    /// The head of a response, before the first byte of its body; `chunked` says whether the body
    /// is framed. It takes all the memory that later calls but `put_all` and `finish` need, in
    /// `room` as far as that goes, whatever bytes are in it. No head has more than 65536 bytes.
    pub fn new(
        alloc: Global,
        head: &[u8],
        chunked: bool,
        room: Vec<u8>,
    ) -> Result<Outgoing, OutOfMemory>
        ensures pending { IfOk result (λ outgoing. outgoing.pending ≡ head.now) }
        ensures block { IfOk result (λ outgoing.
            outgoing.block ≡ (if chunked then Some [] else None)) }
        ensures bounded { IfOk result (λ outgoing. length outgoing.pending ≤ most) }
    {
        let bytes = reserved(head, room)?;
        let framing = begun(alloc, chunked)?;
        Ok(Outgoing {
            bytes,
            start: 0,
            framing,
        })
    }

    /// The bytes that are written next.
    pub fn pending(&self) -> &[u8]
        ensures { result.now ≡ self.now.pending }
    {
        &self.bytes.as_slice()[self.start..]
    }

    /// Takes as many of the next bytes of the body as there is room for, and answers how many. Of a
    /// body in chunks (RFC 9112, section 7.1) no byte is taken from the one on that would make a
    /// block whole for whose chunk there is no room. It takes no memory. What is pending grows by
    /// no more than a chunk's 4104 bytes for each 4096 of the body.
    pub fn put(&mut self, bytes: &[u8]) -> usize
        ensures within { result ≤ length bytes.now }
        ensures exact { (more : List ℕ)
            → to_come self.new (drop result bytes.now ++ more)
            ≡ to_come self.old (bytes.now ++ more) }
        ensures stops { result < length bytes.now
            → IsFull most self.new.block (length self.new.pending) }
        ensures bounded { length self.old.pending ≤ most → length self.new.pending ≤ most }
        ensures keeps { take (length self.old.pending) self.new.pending ≡ self.old.pending }
        ensures kind { is_some self.new.block ≡ is_some self.old.block }
        ensures waits { waiting self.new.block < 4096 }
        ensures share { 512 * length self.new.pending + 513 * waiting self.new.block
            ≤ 512 * length self.old.pending + 513 * waiting self.old.block + 513 * result }
        ensures measure { length self.new.pending + 2 * waiting self.new.block
            ≤ length self.old.pending + 2 * waiting self.old.block + 2 * result }
    {
        self.start = moved_down(&mut self.bytes, self.start);
        let room = MOST.saturating_sub(self.bytes.len() - self.start);
        add(&mut self.framing, &mut self.bytes, bytes, room)
    }

    /// The first of the pending bytes were written.
    pub fn used(&mut self, count: usize)
        requires { count ≤ length self.old.pending }
        ensures pending { self.new.pending ≡ drop count self.old.pending }
        ensures block { self.new.block ≡ self.old.block }
    {
        self.start += count;
    }

    /// Takes all these bytes of the body, whatever room there is. After want of memory all is as
    /// before.
    pub fn put_all(&mut self, bytes: &[u8]) -> Result<(), OutOfMemory>
        ensures exact { OnOk result ((more : List ℕ)
            → to_come self.new more ≡ to_come self.old (bytes.now ++ more)) }
        ensures keeps { OnOk result
            (take (length self.old.pending) self.new.pending ≡ self.old.pending) }
        ensures kind { is_some self.new.block ≡ is_some self.old.block }
        ensures err { OnErr result (self.new ≡ self.old) }
    {
        self.start = moved_down(&mut self.bytes, self.start);
        // The chunk of a whole block has 513 bytes for each 512 of the body: so there is room for
        // one more chunk than can become whole, and all bytes are taken.
        let room = bytes.len() + bytes.len() / 512 + 4104;
        self.bytes.reserve(room)?;
        add(&mut self.framing, &mut self.bytes, bytes, room);
        Ok(())
    }

    /// Ends the body, and hands all that is still to be written to the queue: how many of these
    /// bytes are the tail of a body in chunks, its last chunk and the empty one; 0 of one that isn't
    /// in chunks. Its own room is put in the place of `room`, for the next response, unless it has
    /// grown. After want of memory the queue is as before.
    pub fn finish(self, out: &mut ByteQueue, room: &mut Vec<u8>) -> Result<usize, OutOfMemory>
        ensures ok { OnOk result (out.new ≡ out.old ++ to_come self []) }
        ensures tail { IfOk result (λ tail. tail ≡ length (framed_as self.block [])) }
        ensures few { waiting self.block < 4096 }
        ensures err { OnErr result (out.new ≡ out.old) }
    {
        let mut bytes = self.bytes;
        let tail = end(self.framing, &mut bytes)?;
        out.append(&bytes.as_slice()[self.start..])?;
        if bytes.capacity() <= ROOM {
            swap(room, &mut bytes);
        }
        Ok(tail)
    }
}
