// The split of a document that comes in pieces.
ghost use Rattle.std.specs.Prelude.{◌≡◌, ℕ, ◌+◌, ◌-◌, ◌<◌, ◌≤◌, ◌++◌, List, [], ◌∷◌, length, take, drop, map, min, IfOk};
ghost use Rattle.ssi_text.specs.Marks.{Mark, Byte, marks};
ghost use Rattle.ssi_text.specs.Split.{split, parts};

use crate::part::Part;
use crate::place::rest_of;
use crate::scan::{is_text, push_part, push_text, split_bytes};
use byte_text::{ByteQueue, ByteText, OutOfMemory};
use std::alloc::Global;
use std::marker::Model;

/// How many bytes are looked at beside undecided ones: as many as decide what those are.
const NEAR: usize = 8192;

/// The split of a document that comes in pieces. Contracts see the bytes that are undecided, of which only those that
/// come decide what they are.
///
/// Commands begin at `<!--#` and end with the first `-->` outside quotes, within 8192 bytes in all; all else is text
/// (this project's profile of nginx's ngx_http_ssi_module). Text is found in one scan, and copied once.
#[derive(Drop)]
pub struct SsiState {
    undecided: ByteQueue,
}

impl Model for SsiState {
    ghost Value = { List ℕ };

    ghost view = { λ s. s.undecided };
}

/// The next bytes, at most as many as decide a command.
fn near_of(bytes: &[u8], at: usize) -> &[u8]
    requires { at ≤ length bytes.now }
    ensures value { result.now ≡ take (length result.now) (drop at bytes.now) }
    ensures within { at + length result.now ≤ length bytes.now }
    ensures some { at < length bytes.now → 0 < length result.now }
{
    if bytes.len() - at > NEAR {
        &bytes[at..at + NEAR]
    } else {
        &bytes[at..]
    }
}

impl SsiState {
    /// At the beginning of a document, with nothing undecided. Takes no memory.
    pub fn new(alloc: Global) -> SsiState
        ensures { result ≡ [] }
    {
        SsiState {
            undecided: ByteQueue::new(alloc),
        }
    }

    /// Goes on where another state left these bytes undecided.
    pub fn from_undecided(alloc: Global, undecided: &[u8]) -> Result<SsiState, OutOfMemory>
        ensures { IfOk result (λ state. state ≡ undecided.now) }
    {
        let mut queue = ByteQueue::new(alloc);
        queue.append(undecided)?;
        Ok(SsiState { undecided: queue })
    }

    /// The bytes that are undecided.
    pub fn undecided(&self) -> &[u8]
        ensures { result.now ≡ self.now }
    {
        self.undecided.front()
    }

    /// The next bytes of the document: puts out the parts that are decided by now, and holds the rest. After want of
    /// memory the state and `out` may only be dropped.
    pub fn feed(
        &mut self,
        alloc: Global,
        piece: &[u8],
        out: &mut Vec<Part>,
    ) -> Result<(), OutOfMemory>
        ensures out { IfOk result (λ _. marks out.new.items
            ≡ marks out.old.items ++ (split 0 (self.old ++ piece.now)).0) }
        ensures undecided { IfOk result (λ _. self.new ≡ (split 0 (self.old ++ piece.now)).1) }
    {
        let mut at = 0;
        'feeding: loop {
            if self.undecided.is_empty() {
                let rest = rest_of(piece, at);
                let used = split_bytes(alloc, rest, out)?;
                self.undecided.append(rest_of(rest, used))?;
                return Ok(());
            }
            let near = near_of(piece, at);
            self.undecided.append(near)?;
            at += near.len();
            let used = split_bytes(alloc, self.undecided.front(), out)?;
            self.undecided.used(used);
            if at == piece.len() {
                return Ok(());
            }
        }
    }

    /// The next bytes of the document, as `feed` takes them, in a text of their own: where all of it is text it becomes
    /// a part as it is, with no copy.
    pub fn feed_text(
        &mut self,
        alloc: Global,
        piece: ByteText,
        out: &mut Vec<Part>,
    ) -> Result<(), OutOfMemory>
        ensures out { IfOk result (λ _. marks out.new.items
            ≡ marks out.old.items ++ (split 0 (self.old ++ piece)).0) }
        ensures undecided { IfOk result (λ _. self.new ≡ (split 0 (self.old ++ piece)).1) }
    {
        if self.undecided.is_empty() && is_text(piece.as_slice()) {
            push_part(out, Part::Text(piece))?;
            return Ok(());
        }
        self.feed(alloc, piece.as_slice(), out)?;
        Ok(())
    }

    /// The document ends, so what is undecided is text; another may begin. After want of memory the state and `out` may only
    /// be dropped.
    pub fn end(&mut self, alloc: Global, out: &mut Vec<Part>) -> Result<(), OutOfMemory>
        ensures out { IfOk result (λ _. marks out.new.items
            ≡ marks out.old.items ++ map Byte self.old) }
        ensures undecided { IfOk result (λ _. self.new ≡ []) }
    {
        push_text(alloc, self.undecided.front(), out)?;
        self.undecided.clear();
        Ok(())
    }
}
