// A node's buffer.
ghost use Rattle.std.specs.Prelude.{◌≡◌, ℕ, ◌+◌, ◌-◌, ◌<◌, ◌≤◌, ◌==◌, true, false, Bool, List, [], ◌++◌, length, take, drop, min, max, vec_len, vec_capacity, IfOk, IfSome, None, OnOk, OnErr, if◌then◌else◌};
ghost use Rattle.postpone_filter.specs.Row.{most};
ghost use Rattle.postpone_filter.specs.Buffers.{Buffer, is_kept};

use byte_text::{ByteText, OutOfMemory};
use std::alloc::Global;
use std::marker::Model;

/// The most bytes of one node that wait.
pub const MOST: usize = 32768;

/// The fewest bytes that a buffer has room for.
const LEAST: usize = 512;

/// Takes the first `start` bytes away, by moving the others down.
fn move_down(bytes: &mut Vec<u8>, start: usize)
    requires { start ≤ vec_len bytes.old }
    ensures items { bytes.new.items ≡ drop start bytes.old.items }
    ensures len { vec_len bytes.new + start ≡ vec_len bytes.old }
    ensures capacity { vec_capacity bytes.new ≡ vec_capacity bytes.old }
{
    let len = bytes.len();
    bytes.copy_within(start..len, 0);
    bytes.truncate(len - start);
}

/// How large a buffer of this size becomes that is to have room for `len` bytes: twice as large, where that is enough.
fn grown(capacity: usize, len: usize) -> usize
    requires { len ≤ most }
    ensures enough { len ≤ result }
    ensures bounded { result ≤ most }
{
    let size = capacity.saturating_mul(2).max(LEAST);
    len.max(size.min(MOST))
}

/// Makes room for `count` more bytes: takes the first `start` bytes away, and grows the buffer where that isn't enough.
/// Where there is no memory, they are taken away too.
#[inline(never)]
fn make_room(bytes: &mut Vec<u8>, start: usize, count: usize) -> Result<(), OutOfMemory>
    requires within { start ≤ vec_len bytes.old }
    requires bounded { vec_len bytes.old - start + count ≤ most }
    ensures items { bytes.new.items ≡ drop start bytes.old.items }
    ensures len { vec_len bytes.new + start ≡ vec_len bytes.old }
    ensures room { OnOk result (vec_len bytes.new + count ≤ vec_capacity bytes.new) }
    ensures capacity { vec_capacity bytes.new ≤ max (vec_capacity bytes.old) most }
{
    move_down(bytes, start);
    let len = bytes.len();
    if bytes.capacity() - len < count {
        let size = grown(bytes.capacity(), len + count);
        bytes.reserve_exact(size - len)?;
    }
    Ok(())
}

/// Drops all bytes, and gives their memory back where it serves no more.
fn empty(bytes: &mut Vec<u8>, give_back: bool)
    ensures items { bytes.new.items ≡ [] }
    ensures len { vec_len bytes.new ≡ 0 }
    ensures kept { give_back ≡ false → vec_capacity bytes.new ≡ vec_capacity bytes.old }
    ensures given_back { give_back ≡ true → vec_capacity bytes.new ≡ 0 }
{
    bytes.clear();
    if give_back {
        bytes.shrink_to_fit();
    }
}

/// The bytes of a node that wait, whether the node has not ended, and where its place was last found. Contracts see the
/// bytes and whether it has not ended. Its buffer is taken with its first byte, grows to at most 32768 bytes, and is
/// given back once the node has ended and no byte of it waits.
#[derive(Drop)]
pub struct Node {
    bytes: Vec<u8>,
    start: usize,
    opened: bool,
    hint: usize,
}

impl Model for Node {
    ghost use Rattle.std.specs.Prelude.{drop, vec_len, vec_capacity};
    ghost use Rattle.postpone_filter.specs.Buffers.{Buffer, IsReserved};

    ghost Value = { Buffer };

    ghost view = { λ n. record { waiting = drop n.start n.bytes.items; goes_on = n.opened } };

    ghost invariant = { λ n. IsReserved n.opened n.start (vec_len n.bytes) (vec_capacity n.bytes) };
}

impl Node {
    /// A node that has placed nothing. It takes no memory.
    pub fn new(alloc: Global, hint: usize) -> Node
        ensures waiting { result.waiting ≡ [] }
        ensures goes_on { result.goes_on ≡ true }
    {
        Node {
            bytes: Vec::new(alloc),
            start: 0,
            opened: true,
            hint,
        }
    }

    /// Where the node's place was last found, counted from the row's beginning.
    pub fn hint(&self) -> usize {
        self.hint
    }

    pub fn set_hint(&mut self, hint: usize)
        ensures { self.new ≡ self.old }
    {
        self.hint = hint;
    }

    /// Whether the node has not ended.
    pub fn goes_on(&self) -> bool
        ensures { result ≡ self.now.goes_on }
    {
        self.opened
    }

    /// How many more bytes it takes.
    pub fn room(&self) -> usize
        ensures room { result ≡ (if self.now.goes_on then most - length self.now.waiting else 0) }
        ensures bounded { length self.now.waiting ≤ most }
    {
        if self.opened {
            MOST - (self.bytes.len() - self.start)
        } else {
            0
        }
    }

    /// All bytes that wait.
    pub fn front(&self) -> &[u8]
        ensures { result.now ≡ self.now.waiting }
    {
        &self.bytes.as_slice()[self.start..]
    }

    /// Whether the node has a buffer: only where it has not ended or bytes of it wait.
    pub fn has_buffer(&self) -> bool
        ensures kept { is_kept self.now.goes_on (length self.now.waiting) ≡ false
            → result ≡ false }
        ensures none { result ≡ false → self.now.waiting ≡ [] }
    {
        self.bytes.capacity() > 0
    }

    /// Takes as many of the bytes as fit, and answers how many: none of them once the node has ended. After want of
    /// memory all is as before.
    pub fn append(&mut self, more: &[u8]) -> Result<usize, OutOfMemory>
        ensures count { IfOk result (λ count. count ≡ (if self.old.goes_on
            then min (length more.now) (most - length self.old.waiting) else 0)) }
        ensures waiting { IfOk result (λ count. self.new.waiting
            ≡ self.old.waiting ++ take count more.now) }
        ensures goes_on { self.new.goes_on ≡ self.old.goes_on }
        ensures bounded { length self.new.waiting ≤ most }
        ensures err { OnErr result (self.new ≡ self.old) }
    {
        if !self.opened {
            return Ok(0);
        }
        let count = more.len().min(MOST - (self.bytes.len() - self.start));
        if self.bytes.capacity() - self.bytes.len() < count {
            let made = make_room(&mut self.bytes, self.start, count);
            self.start = 0;
            made?;
        }
        // It takes no memory and can't fail: there is room.
        self.bytes.extend_from_slice(&more[..count]).unwrap();
        Ok(count)
    }

    /// Takes these bytes over, with no copy, where the node has no buffer yet and all of them may wait; else gives them
    /// back.
    pub fn take_over(&mut self, more: ByteText) -> Option<ByteText>
        ensures goes_on { self.new.goes_on ≡ self.old.goes_on }
        ensures taken { result ≡ None → (self.old.goes_on ≡ true)
            × (self.new.waiting ≡ self.old.waiting ++ more) }
        ensures bounded { length self.new.waiting ≤ most }
        ensures back { IfSome result (λ text. (text ≡ more) × (self.new ≡ self.old)) }
    {
        if !self.opened || self.has_buffer() || more.len() > MOST {
            return Some(more);
        }
        self.bytes = more.into_vec();
        self.start = 0;
        None
    }

    /// Drops the first bytes.
    pub fn used(&mut self, count: usize)
        requires { count ≤ length self.old.waiting }
        ensures waiting { self.new.waiting ≡ drop count self.old.waiting }
        ensures goes_on { self.new.goes_on ≡ self.old.goes_on }
    {
        self.start += count;
        if self.start == self.bytes.len() {
            self.start = 0;
            empty(&mut self.bytes, !self.opened);
        }
    }

    /// Whether the node has ended and no byte of it waits.
    pub fn is_ended(&self) -> bool
        ensures { result ≡ true → self.now.goes_on ≡ false }
    {
        !self.opened && self.start == self.bytes.len()
    }

    /// The node, which has ended, goes on again, where its place was found there.
    pub fn open_again(&mut self, hint: usize)
        ensures waiting { self.new.waiting ≡ self.old.waiting }
        ensures goes_on { self.new.goes_on ≡ true }
    {
        self.opened = true;
        self.hint = hint;
    }

    /// The node has ended.
    pub fn end(&mut self)
        ensures waiting { self.new.waiting ≡ self.old.waiting }
        ensures goes_on { self.new.goes_on ≡ false }
    {
        self.opened = false;
        if self.start == self.bytes.len() {
            self.start = 0;
            empty(&mut self.bytes, true);
        }
    }
}
