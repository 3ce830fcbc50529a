// What is asked of the files, and what they answer.
ghost use Rattle.std.specs.Prelude.{◌≡◌, IfOk};
ghost use Rattle.file_tree.specs.Tree.{is_fitting as fits};

use byte_text::{ByteText, OutOfMemory};
use std::alloc::Global;

/// What is at a path: a file with its length in bytes and its date in seconds since 1970, a folder, a node that may not
/// be read, or nothing.
#[derive(Clone, Copy, Debug, PartialEq, Eq)]
pub enum Node {
    File { len: u64, date: u64 },
    Folder,
    Locked,
    Missing,
}

/// A job that a request gives to the files. Each asks of the tree with the number `of`, which is the tree at the
/// request's start.
#[derive(Clone, Debug, Drop)]
pub enum Ask {
    /// What is at a path.
    Stat {
        path: ByteText,
        of: u64,
    },
    /// The `count` bytes of a file from `start` on.
    Read {
        path: ByteText,
        start: u64,
        count: u64,
        of: u64,
    },
}

/// What the files answer to a job. It lends the bytes that were read, so that a block is copied once, into the buffer
/// of the request that asked for it.
#[derive(Clone, Copy, Debug)]
pub enum JobAnswer<'a> {
    /// What is at the path, and all bytes of the file that is there, or none: files that keep a small file at hand
    /// bring its bytes with the answer, so that it isn't read after that.
    Stat(Node, &'a [u8]),
    Read(&'a [u8]),
}

/// What was told of a path, as it is kept: what is there, and all bytes of the file that is there, or none.
#[derive(Drop)]
pub struct Found {
    pub node: Node,
    pub text: ByteText,
}

impl Found {
    /// With a copy of the bytes that came.
    pub fn new(alloc: Global, node: Node, bytes: &[u8]) -> Result<Found, OutOfMemory>
        ensures node { IfOk result (λ found. found.node ≡ node) }
        ensures text { IfOk result (λ found. found.text ≡ bytes.now) }
    {
        Ok(Found {
            node,
            text: ByteText::from_slice(alloc, bytes)?,
        })
    }
}

/// Whether an answer is of the job's kind, and of its length.
pub fn is_fitting(ask: &Ask, answer: JobAnswer) -> bool
    ensures { result ≡ fits ask.now answer.entry }
{
    match (ask, answer) {
        (Ask::Stat { path: _, of: _ }, JobAnswer::Stat(_, _)) => true,
        (
            Ask::Read {
                path: _,
                start: _,
                count,
                of: _,
            },
            JobAnswer::Read(bytes),
        ) => bytes.len() as u64 == *count,
        _ => false,
    }
}
