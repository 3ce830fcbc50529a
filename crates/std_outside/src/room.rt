// The room into which files are read, and from which their bytes are lent.
ghost use Rattle.std.specs.Prelude.{◌≡◌, ◌≤◌, ◌+◌, ℕ, List, [], length, take, drop, vec_len, OnOk};

use crate::files::has_same_bytes;
use crate::kept::KeptFile;
use crate::looks::Looks;
use ngx_outside::FileFault;
use std::alloc::Global;
use std::fs::OpenFile;
use std::marker::Model;
use std::os::fd::AsRawFd;
use std::os::unix::fs::FileExt;

/// No more bytes than these are read of a file at once: all of a small one, and what comes next of one that is read on. So the host
/// is asked once for several parts, which are then of one state.
const MOST: u64 = 65536;

/// So few bytes of a file that is read at once are read into the room also where they are all: such a small file keeps its bytes.
const FEW_BYTES: u64 = 4096;

/// Whether these bytes of a file are read into the room, from which they are copied: those of one that is read at once, for several
/// parts of it or since it is small. Others are read to their place.
#[inline(always)]
pub(crate) fn is_for_room<F: Drop>(kept: &KeptFile<F>, start: u64, count: u64) -> bool {
    kept.len() <= MOST && (count <= FEW_BYTES || !kept.is_whole(start, count))
}

// Fills a slice with the bytes that a file has from a place on, by several calls.
#[inline(never)]
fn read_in_parts<F: FileExt>(file: &F, into: &mut [u8], start: u64) -> bool {
    file.read_exact_at(into, start).is_ok()
}

// Fills a slice with the bytes that a file has from a place on; false where they can't be read. Mostly the system has them all at once
// (pread(2)).
#[inline(always)]
pub(crate) fn read_into<F: FileExt + AsRawFd>(file: &F, into: &mut [u8], start: u64) -> bool {
    let got = libc::pread(file.as_raw_fd(), into, start.cast_signed());
    got == into.len().cast_signed() || read_in_parts(file, into, start)
}

// Reads this many bytes that a file has from a place on into the front of a room. One that is too small grows, and none is cleared
// again, so that a server which reads on clears nothing.
#[inline(always)]
fn read_front<F: FileExt + AsRawFd + OpenFile + Drop>(
    kept: &KeptFile<F>,
    start: u64,
    count: usize,
    room: &mut Vec<u8>,
) -> Result<(), FileFault>
    ensures grows { vec_len room.old ≤ vec_len room.new }
    ensures holds { OnOk result (count ≤ vec_len room.new) }
{
    if room.len() < count {
        let Ok(()) = room.resize(count, 0) else {
            return Err(FileFault::OutOfMemory);
        };
    }
    if !read_into(&kept.file, &mut room[..count], start) {
        return Err(FileFault::Failed);
    }
    Ok(())
}

/// Room for the bytes that were read of a file last, of which a part is lent. Contracts see it as the list of the bytes that
/// are lent.
///
/// All that was read at once lies here, all bytes of a small file or some of any file, and may be lent later too.
#[derive(Drop)]
pub struct Room {
    bytes: Vec<u8>,
    /// The number of the file and of the tree that shows it, where bytes of it lie here.
    of: Option<(u64, u64)>,
    /// From which place of the file on they lie here, and how many.
    from: u64,
    len: usize,
    /// Which of them are lent.
    start: usize,
    count: usize,
}

impl Model for Room {
    ghost Value = { List ℕ };

    ghost view = { λ r. take r.count (drop r.start r.bytes.items) };

    ghost invariant = { λ r. (r.start + r.count ≤ vec_len r.bytes) × (r.len ≤ vec_len r.bytes) };
}

impl Room {
    /// No bytes are lent. It takes no memory yet.
    pub fn new(alloc: Global) -> Room
        ensures { result ≡ [] }
    {
        Room {
            bytes: Vec::new(alloc),
            of: None,
            from: 0,
            len: 0,
            start: 0,
            count: 0,
        }
    }

    /// The bytes that are lent.
    pub fn block(&self) -> &[u8]
        ensures { result.now ≡ self.now }
    {
        &self.bytes.as_slice()[self.start..][..self.count]
    }

    // Whether bytes of this file, as the tree of a number shows it, lie here.
    fn is_of<F: Drop>(&self, kept: &KeptFile<F>, of: u64) -> bool {
        self.of == Some((kept.number(), of))
    }

    // Whether these bytes of a file lie here.
    fn has<F: Drop>(&self, kept: &KeptFile<F>, start: u64, count: u64, of: u64) -> bool {
        let Some(at) = start.checked_sub(self.from) else {
            return false;
        };
        let Some(left) = (self.len as u64).checked_sub(at) else {
            return false;
        };
        self.is_of(kept, of) && count <= left
    }

    // How many bytes of a file are read from a place on, where this many are asked: more where those before them were read last.
    fn ahead<F: Drop>(&self, kept: &KeptFile<F>, start: u64, count: u64, of: u64) -> u64
        ensures { count ≤ result }
    {
        let end = self.from.saturating_add(self.len as u64);
        if !self.is_of(kept, of) || start != end {
            return count;
        }
        kept.len().saturating_sub(start).min(MOST).max(count)
    }

    // Reads all of a file. Where others began to read it, it has to be as it was opened: else their parts could be of two states.
    fn fill<F: FileExt + AsRawFd + OpenFile + Drop>(
        &mut self,
        looks: &mut Looks,
        kept: &KeptFile<F>,
        of: u64,
    ) -> Result<(), FileFault> {
        self.of = None;
        let len = kept.len().min(MOST) as usize;
        read_front(kept, 0, len, &mut self.bytes)?;
        if kept.is_read() && !has_same_bytes(looks, &kept.file, &kept.identity) {
            return Err(FileFault::Failed);
        }
        self.from = 0;
        self.len = len;
        self.of = Some((kept.number(), of));
        Ok(())
    }

    // Lends bytes that lie here. What was read for the same tree before is not read again: so all parts that it shows are of one
    // state.
    fn lend(&mut self, start: u64, count: u64) -> Result<(), FileFault>
        ensures { OnOk result (length self.new ≡ count) }
    {
        let Some(at) = start.checked_sub(self.from) else {
            return Err(FileFault::Failed);
        };
        let Some(end) = at.checked_add(count) else {
            return Err(FileFault::Failed);
        };
        if end > self.len as u64 {
            return Err(FileFault::Failed);
        }
        self.start = at as usize;
        self.count = count as usize;
        Ok(())
    }

    /// Lends these bytes, which a small file keeps: they are copied, as the host would do.
    #[inline(always)]
    pub(crate) fn copy(&mut self, bytes: &[u8]) -> Result<(), FileFault>
        ensures { OnOk result (length self.new ≡ length bytes.now) }
    {
        let count = bytes.len();
        self.of = None;
        if self.bytes.len() < count {
            let Ok(()) = self.bytes.resize(count, 0) else {
                return Err(FileFault::OutOfMemory);
            };
        }
        self.bytes[..count].copy_from_slice(bytes);
        self.start = 0;
        self.count = count;
        Ok(())
    }

    // Reads bytes of a file from a place on, and lends those that are asked. Where they aren't all of the file, it fails if the file
    // was written since it was opened: else a response could have bytes of two states of it.
    #[inline(always)]
    fn read_on<F: FileExt + AsRawFd + OpenFile + Drop>(
        &mut self,
        looks: &mut Looks,
        kept: &KeptFile<F>,
        start: u64,
        count: u64,
        of: u64,
    ) -> Result<(), FileFault>
        ensures { OnOk result (length self.new ≡ count) }
    {
        let len = self.ahead(kept, start, count, of) as usize;
        self.of = None;
        read_front(kept, start, len, &mut self.bytes)?;
        if !kept.is_whole(start, count) && !has_same_bytes(looks, &kept.file, &kept.identity) {
            return Err(FileFault::Failed);
        }
        self.from = start;
        self.len = len;
        self.of = Some((kept.number(), of));
        self.start = 0;
        self.count = count as usize;
        Ok(())
    }

    /// Lends this many bytes that a file has from a place on, as the tree of a number shows it: those of a small file from all its
    /// bytes, which were read at once, unless they are all of it. After a failure none are lent.
    pub fn read<F: FileExt + AsRawFd + OpenFile + Drop>(
        &mut self,
        looks: &mut Looks,
        kept: &KeptFile<F>,
        start: u64,
        count: u64,
        of: u64,
    ) -> Result<(), FileFault>
        ensures { OnOk result (length self.new ≡ count) }
    {
        self.count = 0;
        if kept.is_whole(start, count) {
            if let Some(bytes) = kept.bytes(count) {
                self.copy(bytes)?;
                return Ok(());
            }
            self.read_on(looks, kept, start, count, of)?;
            return Ok(());
        }
        if self.has(kept, start, count, of) {
            self.lend(start, count)?;
            return Ok(());
        }
        if start == 0 && kept.len() <= MOST {
            self.fill(looks, kept, of)?;
            self.lend(start, count)?;
            return Ok(());
        }
        self.read_on(looks, kept, start, count, of)?;
        Ok(())
    }
}
