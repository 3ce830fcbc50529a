// The events of a core, its answers and its wants.
use file_tree::JobAnswer;
use http_types::Addr;

/// One atomic step of one actor.
#[derive(Clone, Copy)]
pub enum Event<'a> {
    /// A connection opens, with its two ends.
    Opened {
        conn: u32,
        local: Addr,
        peer: Addr,
    },
    /// Bytes arrive; as many are taken as there is room for.
    Arrived {
        conn: u32,
        bytes: &'a [u8],
    },
    /// The peer sends no more.
    Ended {
        conn: u32,
    },
    /// The first pending bytes were written.
    Wrote {
        conn: u32,
        count: usize,
    },
    /// Reading or writing failed.
    LinkFailed {
        conn: u32,
    },
    /// A node's job is answered.
    FileDone {
        conn: u32,
        node: u32,
        answer: JobAnswer<'a>,
    },
    /// A node's job failed.
    JobFailed {
        conn: u32,
        node: u32,
    },
    /// A node runs to its next suspension.
    Run {
        conn: u32,
        node: u32,
    },
    /// The clock tells a moment, in seconds since 1970.
    Tick {
        now: u64,
    },
    /// The tree of the files has this number from now on.
    Tree {
        to: u64,
    },
    /// The link was closed.
    Gone {
        conn: u32,
    },
}

/// What became of an event.
#[derive(Clone, Copy, Debug, PartialEq, Eq)]
pub enum StepAnswer {
    /// It was done. Of bytes that arrived this many were taken; `taken` is 0 for any other event.
    Done { taken: usize },
    /// It doesn't apply, and nothing changed.
    Skipped,
    /// It was refused for want of memory: an opening changed nothing, any other event stopped its own connection.
    OutOfMemory,
}

/// What may be done next on a connection.
#[derive(Clone, Copy, Debug, PartialEq, Eq)]
pub enum Want {
    /// It takes at most this many bytes.
    Read { conn: u32, room: usize },
    /// A node can run.
    Run { conn: u32, node: u32 },
    /// A node's job waits for its answer.
    Job { conn: u32, node: u32 },
    /// Bytes are pending.
    Write { conn: u32 },
    /// Its link is to be closed.
    Close { conn: u32 },
}

/// When a request started, by the clock and by the number of the tree; and, once it is over, the status of its response
/// and the length of its body in bytes.
#[derive(Clone, Copy, Debug, PartialEq, Eq)]
pub struct Entry {
    pub moment: u64,
    pub tree: u64,
    pub log: Option<(u16, u64)>,
}

/// Why a connection was stopped.
#[derive(Clone, Copy, Debug, PartialEq, Eq)]
pub enum StopCause {
    /// Reading or writing its link failed.
    LinkFault,
    /// A job of a request failed.
    FileFault,
    /// No memory was left for an event.
    Memory,
    /// A request asked for more subrequests than are made for one.
    SubLimit { started: u64 },
    /// Nothing came or went for too long.
    Deadline { due: u64, now: u64 },
}
