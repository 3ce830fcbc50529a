// The room of much that went out.
ghost use Rattle.std.specs.Prelude.{◌≡◌, ◌≤◌, [], drop, length};

use byte_text::ByteQueue;
use std::alloc::Global;
use std::mem;

/// This much room is large.
const MUCH: usize = 4096;

/// The room of a response that went out whole, where that was large: the next large one takes it, on whichever connection, in place of
/// memory of its own. So a connection that rests keeps none of it.
#[derive(Drop)]
pub struct OutRoom {
    room: ByteQueue,
    is_large: bool,
    ghost empty: { room ≡ [] },
}

impl OutRoom {
    /// None is kept, and it takes no memory.
    pub fn new(alloc: Global) -> OutRoom {
        OutRoom {
            room: ByteQueue::new(alloc),
            is_large: false,
        }
    }

    /// Gives the room that is kept to a queue in which nothing waits, where this many more bytes are much.
    pub fn lend(&mut self, out: &mut ByteQueue, additional: usize)
        ensures { out.new ≡ out.old }
    {
        if self.is_large && additional >= MUCH && out.is_empty() {
            mem::swap(&mut self.room, out);
            self.is_large = false;
        }
    }

    /// Drops the first bytes of a queue. Where these were all that waited, its room is kept if it is large.
    pub fn used(&mut self, out: &mut ByteQueue, count: usize)
        requires { count ≤ length out.old }
        ensures { out.new ≡ drop count out.old }
    {
        if self.is_large || count < out.len() || out.room() < MUCH {
            out.used(count);
            return;
        }
        out.clear();
        mem::swap(&mut self.room, out);
        self.is_large = true;
    }
}
