// Bytes that come at the end and leave at the front.
ghost use Rattle.std.specs.Prelude.{◌≡◌, ℕ, ◌+◌, ◌-◌, ◌<◌, ◌≤◌, ◌==◌, true, false, List, [], ◌++◌, length, take, drop, vec_len, OnOk, OnErr, IfOk};

use crate::OutOfMemory;
use std::alloc::Global;
use std::marker::Model;

/// Moves the bytes from `start` to `end` down to the beginning, at once. There are no more of them than before them.
fn move_down(bytes: &mut [u8], start: usize, end: usize)
    requires within { start ≤ end }
    requires room { end ≤ length bytes.old }
    requires apart { end ≤ start + start }
    ensures items { take (end - start) bytes.new ≡ drop start (take end bytes.old) }
    ensures len { length bytes.new ≡ length bytes.old }
{
    let count = end - start;
    let (free, moved) = bytes.split_at_mut(start);
    free[..count].copy_from_slice(&moved[..count]);
}

/// Puts bytes in place of others.
fn overwrite(bytes: &mut [u8], at: usize, more: &[u8])
    requires { at + length more.now ≤ length bytes.old }
    ensures { bytes.new ≡ take at bytes.old ++ (more.now ++ drop (at + length more.now) bytes.old) }
{
    let end = at + more.len();
    bytes[at..end].copy_from_slice(more);
}

/// Puts bytes after the first `end` ones, in place of those that were there.
fn put_after(bytes: &mut Vec<u8>, end: usize, more: &[u8]) -> Result<(), OutOfMemory>
    requires { end ≤ vec_len bytes.old }
    ensures ok { OnOk result (take (end + length more.now) bytes.new.items
        ≡ take end bytes.old.items ++ more.now) }
    ensures room { OnOk result (end + length more.now ≤ vec_len bytes.new) }
    ensures err { OnErr result (take end bytes.new.items ≡ take end bytes.old.items) }
    ensures same { OnErr result (end ≤ vec_len bytes.new) }
{
    if more.len() <= bytes.len() - end {
        overwrite(bytes.as_mut_slice(), end, more);
        return Ok(());
    }
    bytes.truncate(end);
    bytes.extend_from_slice(more)?;
    Ok(())
}

/// Makes room after the first `end` bytes, of which none is cleared that was there.
fn make_room(bytes: &mut Vec<u8>, end: usize, count: usize) -> Result<(), OutOfMemory>
    requires { end ≤ vec_len bytes.old }
    ensures items { take end bytes.new.items ≡ take end bytes.old.items }
    ensures room { OnOk result (end + count ≤ vec_len bytes.new) }
    ensures err { OnErr result (end ≤ vec_len bytes.new) }
{
    if count <= bytes.len() - end {
        return Ok(());
    }
    let Some(len) = end.checked_add(count) else {
        return Err(OutOfMemory);
    };
    bytes.resize(len, 0)?;
    Ok(())
}

/// Lets `fill` put `count` bytes after the first `end` ones.
fn fill_after<G: FnOnce(&mut [u8]) -> bool>(
    bytes: &mut Vec<u8>,
    end: usize,
    count: usize,
    fill: G,
) -> bool
    requires callable { G.IsAlwaysCallable fill }
    requires room { end + count ≤ vec_len bytes.old }
    ensures items { take end bytes.new.items ≡ take end bytes.old.items }
    ensures len { vec_len bytes.new ≡ vec_len bytes.old }
{
    let last = end + count;
    fill(&mut bytes[end..last])
}

/// A queue that runs empty keeps no more room than this.
const KEPT: usize = 512;

/// A queue of bytes that grows. Contracts see it as the list of the bytes that wait, the next to leave first.
///
/// Bytes leave by a start offset, and are moved down only when there is no room after them, and more than half of the buffer is free at
/// its front: so each byte is moved a bounded number of times, and a queue that runs empty moves none. Much room is given back then, so that
/// a connection that rests holds little, and one that needs much gets what another had just now. Room that bytes were in isn't cleared
/// before others come to it.
#[derive(Drop)]
pub struct ByteQueue {
    bytes: Vec<u8>,
    start: usize,
    end: usize,
}

impl Model for ByteQueue {
    ghost Value = { List ℕ };

    ghost view = { λ q. drop q.start (take q.end q.bytes.items) };

    ghost invariant = { λ q. (q.start ≤ q.end) × (q.end ≤ vec_len q.bytes) };
}

impl ByteQueue {
    /// The empty queue, which takes no memory.
    pub fn new(alloc: Global) -> ByteQueue
        ensures { result ≡ [] }
    {
        ByteQueue {
            bytes: Vec::new(alloc),
            start: 0,
            end: 0,
        }
    }

    pub fn len(&self) -> usize
        ensures { result ≡ length self.now }
    {
        self.end - self.start
    }

    pub fn is_empty(&self) -> bool
        ensures { result ≡ (length self.now == 0) }
    {
        self.start == self.end
    }

    /// All bytes that wait.
    pub fn front(&self) -> &[u8]
        ensures { result.now ≡ self.now }
    {
        &self.bytes.as_slice()[self.start..self.end]
    }

    /// Drops the first bytes.
    pub fn used(&mut self, count: usize)
        requires { count ≤ length self.old }
        ensures { self.new ≡ drop count self.old }
    {
        self.start += count;
        if self.start == self.end {
            self.start = 0;
            self.end = 0;
            if self.bytes.capacity() > KEPT {
                self.bytes.clear();
                self.bytes.shrink_to_fit();
            }
        }
    }

    /// Drops all bytes, and keeps their memory for the next.
    pub fn clear(&mut self)
        ensures { self.new ≡ [] }
    {
        self.start = 0;
        self.end = 0;
    }

    /// Makes room for `additional` more bytes, so that one growth serves them all.
    #[inline(always)]
    pub fn reserve(&mut self, additional: usize) -> Result<(), OutOfMemory>
        ensures { self.new ≡ self.old }
    {
        if additional <= self.bytes.len() - self.end {
            return Ok(());
        }
        self.settle(additional);
        let free = self.bytes.len() - self.end;
        self.bytes.reserve(additional.saturating_sub(free))?;
        Ok(())
    }

    /// For how many bytes there is room, those that wait among them.
    pub fn room(&self) -> usize {
        self.bytes.capacity()
    }

    /// Moves the bytes that wait to the front of the room, where there is none for `additional` more after them, and more of it is
    /// free before them.
    #[inline(never)]
    fn move_to_front(&mut self, additional: usize)
        ensures { self.new ≡ self.old }
    {
        if self.end - self.start < self.start
            && additional > self.bytes.capacity().saturating_sub(self.end)
        {
            move_down(self.bytes.as_mut_slice(), self.start, self.end);
            self.end -= self.start;
            self.start = 0;
        }
    }

    // The same, where any room is free before them.
    #[inline(always)]
    fn settle(&mut self, additional: usize)
        ensures { self.new ≡ self.old }
    {
        if self.start > 0 {
            self.move_to_front(additional);
        }
    }

    pub fn append(&mut self, more: &[u8]) -> Result<(), OutOfMemory>
        ensures ok { OnOk result (self.new ≡ self.old ++ more.now) }
        ensures err { OnErr result (self.new ≡ self.old) }
    {
        self.settle(more.len());
        put_after(&mut self.bytes, self.end, more)?;
        self.end += more.len();
        Ok(())
    }

    /// Adds `count` bytes that `fill` puts into their room, which has any bytes before; none where it answers false. So they
    /// needn't be copied.
    pub fn append_with<G: FnOnce(&mut [u8]) -> bool>(
        &mut self,
        count: usize,
        fill: G,
    ) -> Result<bool, OutOfMemory>
        requires { G.IsAlwaysCallable fill }
        ensures added { IfOk result (λ is_filled. is_filled ≡ true → (more : List ℕ)
            × (length more ≡ count) × (self.new ≡ self.old ++ more)) }
        ensures none { IfOk result (λ is_filled. is_filled ≡ false → self.new ≡ self.old) }
        ensures err { OnErr result (self.new ≡ self.old) }
    {
        self.settle(count);
        make_room(&mut self.bytes, self.end, count)?;
        if !fill_after(&mut self.bytes, self.end, count, fill) {
            return Ok(false);
        }
        self.end += count;
        Ok(true)
    }
}
