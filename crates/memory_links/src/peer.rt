// One scripted peer and its link.
ghost use Rattle.std.specs.Prelude.{◌≡◌, ◌≢◌, ◌≤◌, ◌<◌, ◌+◌, ℕ, List, min, length, take, drop, true, false};
ghost use Rattle.ngx_outside.specs.Causes.{Rose};
ghost use Rattle.ngx_outside.specs.Linked.{GotWithin, PutWithin, PutsNothing, set_due, set_full};
ghost use Rattle.ngx_outside.specs.declared.links.Input.TheVariants.{Failed as ReadFails};
ghost use Rattle.ngx_outside.specs.declared.links.Output.TheVariants.{Failed as WriteFails};
ghost use Rattle.memory_links.specs.Peers.{view_of, after_read, after_write, sends_of, Gives, PutsSome};

use byte_text::ByteText;
use http_types::Addr;
use ngx_outside::{Input, Output};

// A link: its ends and how many were open when it was reported, what its peer sends and how far it was read, whether
// the peer then ends and whether that was read, what was written and how many more bytes are taken now.
#[derive(Drop)]
pub(crate) struct Peer {
    pub(crate) local: Addr,
    pub(crate) peer: Addr,
    pub(crate) among: usize,
    pub(crate) input: ByteText,
    pub(crate) start: usize,
    pub(crate) ends: bool,
    pub(crate) sent: ByteText,
    pub(crate) window: usize,
    pub(crate) held: bool,
    pub(crate) due: bool,
    pub(crate) full: bool,
    pub(crate) ended: bool,
    pub(crate) faults: u64,
}

// What comes after the first `start` bytes.
fn rest_of(bytes: &[u8], start: usize) -> &[u8]
    ensures { result.now ≡ drop start bytes.now }
{
    if start < bytes.len() {
        &bytes[start..]
    } else {
        &[]
    }
}

// The bytes before a place.
fn front_of(bytes: &[u8], end: usize) -> &[u8]
    ensures { result.now ≡ take end bytes.now }
{
    if end < bytes.len() {
        &bytes[..end]
    } else {
        bytes
    }
}

// Copies a front into the buffer, as much as it holds.
fn copy_front(bytes: &[u8], buf: &mut [u8]) -> usize
    ensures count { result ≡ min (length bytes.now) (length buf.old) }
    ensures bytes { take result buf.new ≡ take result bytes.now }
{
    let count = bytes.len().min(buf.len());
    buf[..count].copy_from_slice(&bytes[..count]);
    count
}

impl Peer {
    /// What was read of the input.
    pub(crate) fn taken(&self) -> &[u8]
        ensures { result.now ≡ (view_of self.now).taken }
    {
        front_of(self.input.as_slice(), self.start)
    }

    /// Reads what is left of the input; after it the peer ends, or sends nothing yet.
    pub(crate) fn read(&mut self, fails: bool, buf: &mut [u8]) -> Input
        ensures count { GotWithin result (length buf.new) }
        ensures told { view_of self.new ≡ after_read result buf.new (view_of self.old) }
        ensures sends { Gives result buf.new (sends_of self.old) (sends_of self.new) }
        ensures sure { fails ≡ false → result ≢ ReadFails }
        ensures held { self.new.held ≡ self.old.held }
        ensures later { self.old.faults ≤ self.new.faults }
        ensures cause { result ≡ ReadFails → Rose self.old.faults self.new.faults }
    {
        self.due = false;
        if fails {
            self.faults = self.faults.saturating_add(1);
            return Input::Failed;
        }
        let rest = rest_of(self.input.as_slice(), self.start);
        if rest.is_empty() {
            if self.ends {
                self.ended = true;
                return Input::End;
            }
            return Input::NotYet;
        }
        let count = copy_front(rest, buf);
        if count == 0 {
            return Input::NotYet;
        }
        self.start += count;
        Input::Got(count)
    }

    /// Takes as many bytes as are taken now, or none of them, or fails.
    pub(crate) fn write(&mut self, fails: bool, takes_none: bool, bytes: &[u8]) -> Output
        ensures count { PutWithin result (length bytes.now) }
        ensures told { view_of self.new ≡ after_write result bytes.now (view_of self.old) }
        ensures sends { sends_of self.new ≡ sends_of self.old }
        ensures held { self.new.held ≡ self.old.held }
        ensures later { self.old.faults ≤ self.new.faults }
        ensures cause { result ≡ WriteFails → Rose self.old.faults self.new.faults }
        ensures nothing { PutsNothing result bytes.now self.old.faults self.new.faults }
        ensures sure { takes_none ≡ false → PutsSome result bytes.now }
    {
        if fails || takes_none {
            self.faults = self.faults.saturating_add(1);
            return if fails {
                Output::Failed
            } else {
                Output::Put(0)
            };
        }
        if bytes.is_empty() {
            return Output::Put(0);
        }
        if self.window == 0 {
            self.full = true;
            return Output::NotYet;
        }
        let count = self.window.min(bytes.len());
        if self.sent.extend(&bytes[..count]).is_err() {
            self.faults = self.faults.saturating_add(1);
            return Output::Failed;
        }
        self.window -= count;
        Output::Put(count)
    }

    /// The link is reported readable.
    pub(crate) fn hear(&mut self)
        ensures told { view_of self.new ≡ set_due true (view_of self.old) }
        ensures sends { sends_of self.new ≡ sends_of self.old }
        ensures held { self.new.held ≡ self.old.held }
        ensures faults { self.new.faults ≡ self.old.faults }
    {
        self.due = true;
    }

    /// The link takes `more` more bytes.
    pub(crate) fn widen(&mut self, more: usize)
        ensures told { view_of self.new ≡ set_full false (view_of self.old) }
        ensures sends { sends_of self.new ≡ sends_of self.old }
        ensures held { self.new.held ≡ self.old.held }
        ensures faults { self.new.faults ≡ self.old.faults }
    {
        self.full = false;
        self.window = self.window.saturating_add(more);
    }

    /// The link is closed.
    pub(crate) fn close(&mut self)
        ensures told { view_of self.new ≡ view_of self.old }
        ensures sends { sends_of self.new ≡ sends_of self.old }
        ensures held { self.new.held ≡ false }
        ensures faults { self.new.faults ≡ self.old.faults }
    {
        self.held = false;
    }
}
