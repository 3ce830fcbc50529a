// What a script keeps of a connection.
ghost use Rattle.std.specs.Prelude.{◌≡◌, [], ℕ, None};

use byte_text::{ByteQueue, ByteText};
use http_types::Addr;
use std::alloc::Global;

/// How the input of a connection ends: not yet; as soon as its queue is empty; or the core was told so.
#[derive(Clone, Copy, Debug, PartialEq, Eq)]
pub enum InputEnd {
    Open,
    Due,
    Given,
}

/// The two ends of a connection: where it came in, and who opened it.
#[derive(Clone, Copy, PartialEq, Eq)]
pub struct LinkEnds {
    pub local: Addr,
    pub peer: Addr,
}

/// What a script keeps of a connection: the bytes that wait to arrive, how they end, all that was emitted, and the ends of its
/// last opening that was done.
#[derive(Drop)]
pub struct Lane {
    pub conn: u32,
    pub queue: ByteQueue,
    pub tail: InputEnd,
    pub emitted: ByteText,
    pub ends: Option<LinkEnds>,
}

impl Lane {
    /// The empty lane of a connection.
    pub fn new(alloc: Global, conn: u32) -> Self
        ensures conn { result.conn ≡ conn }
        ensures queue { result.queue ≡ [] }
        ensures tail { result.tail ≡ InputEnd.Open }
        ensures emitted { result.emitted ≡ [] }
        ensures ends { result.ends ≡ None }
    {
        Lane {
            conn,
            queue: ByteQueue::new(alloc),
            tail: InputEnd::Open,
            emitted: ByteText::new(alloc),
            ends: None,
        }
    }
}
