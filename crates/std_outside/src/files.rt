// The host's files.
ghost use Rattle.std.specs.Prelude.{◌≡◌, ◌+◌, ◌≤◌, ◌++◌, ℕ, List, length, take, vec_len, OnOk, OnErr, IfOk};
ghost use Rattle.ngx_outside.specs.Causes.{Rose};
ghost use Rattle.ngx_outside.specs.declared.files.Listing.TheVariants.{Missing};

use crate::kept::{Identity, KeptFile, KeptFiles, MOST, Slot, Sought};
use crate::looks::Looks;
use crate::room::{Room, is_for_room, read_into};
use byte_text::{ByteQueue, ByteText, ByteTexts, OutOfMemory};
use file_tree::Node;
use libc::types::rlimit;
use ngx_outside::{Failed, FileFault, Files, Listing, Look};
use std::alloc::Global;
use std::fs::OpenFile;
use std::io::ErrorKind;
use std::os::fd::AsRawFd;
use std::os::unix::fs::FileExt;
use std::rt::Files as Host;
use std::{fs, io, str};

// The number of the error that the host has no descriptor left (errno(3)).
const ENFILE: i32 = 23;

// This many files are kept open at most where the limit of descriptors isn't known, and this many descriptors are neither a
// file's nor a link's.
const FEW: usize = 16;

const DESCRIPTORS_BESIDE: u64 = 8;

// Bytes of a file: its path, from where on and how many, and the number of the tree.
#[derive(Clone, Copy)]
struct Block<'a> {
    path: &'a [u8],
    start: u64,
    count: u64,
    of: u64,
}

// What an error of the host says of a path. Of what isn't said here the job fails.
fn node_missed(kind: ErrorKind) -> Result<Node, Failed> {
    match kind {
        ErrorKind::NotFound
        | ErrorKind::NotADirectory
        | ErrorKind::InvalidFilename
        | ErrorKind::InvalidInput => Ok(Node::Missing),
        ErrorKind::PermissionDenied | ErrorKind::FilesystemLoop => Ok(Node::Locked),
        _ => Err(Failed),
    }
}

// Whether a call failed since the process, or the host, has no descriptor left.
fn is_full(error: &io::Error) -> bool {
    match error.raw_os_error() {
        Some(code) => code == libc::EMFILE || code == ENFILE,
        None => false,
    }
}

// Opens a file. Where no descriptor is left, the kept files that nobody reads are given up, and the call is tried again.
fn open_file<R: Host>(host: &R, kept: &mut KeptFiles<R::File>, path: &str) -> io::Result<R::File> {
    match fs::open(host, path) {
        Err(error) if is_full(&error) => {
            kept.give_up_unread();
            fs::open(host, path)
        }
        opened => opened,
    }
}

// Opens a file for the tree of a number, and keeps it open. What is told is told of what was opened, whatever has been at
// the path since.
#[inline(never)]
fn keep_file<R: Host>(
    alloc: Global,
    host: &R,
    kept: &mut KeptFiles<R::File>,
    path: &str,
    of: u64,
) -> Result<Node, Failed> {
    let file = match open_file(host, kept, path) {
        Ok(file) => file,
        Err(error) => return node_missed(error.kind()),
    };
    let Ok(found) = file.metadata() else {
        return Err(Failed);
    };
    let identity = Identity::of(&found);
    let node = identity.node();
    if !found.is_file() {
        return Ok(node);
    }
    let Ok(path) = String::from_str(alloc, path) else {
        return Err(Failed);
    };
    match kept.keep(KeptFile::new(alloc, path, file, identity, of)) {
        Ok(()) => Ok(node),
        Err(OutOfMemory) => Err(Failed),
    }
}

// What is at a path where no kept file is. Only a file that can be opened is one that can be read. Nothing but a file
// is opened, since to open what isn't one may have to wait.
#[inline(never)]
fn look_anew<R: Host>(
    alloc: Global,
    host: &R,
    looks: &mut Looks,
    kept: &mut KeptFiles<R::File>,
    path: &[u8],
    of: u64,
) -> Result<Node, Failed> {
    let Ok(path) = str::from_utf8(path) else {
        return Ok(Node::Missing);
    };
    if path.as_bytes().contains(&0) {
        return Ok(Node::Missing);
    }
    match looks.at(path.as_bytes()) {
        Ok(found) => match Identity::in_statx(found).node() {
            Node::File { len: _, date: _ } => keep_file(alloc, host, kept, path, of),
            node => Ok(node),
        },
        Err(kind) => node_missed(kind),
    }
}

// Whether a kept file is still the one at its path, with the rights that it had. There is no 0 in the path, since the file was
// opened by it.
fn is_still_there<F: Drop>(looks: &mut Looks, kept: &KeptFile<F>) -> bool {
    match looks.at(kept.path.as_bytes()) {
        Ok(found) => Identity::in_statx(found) == kept.identity,
        Err(_) => false,
    }
}

// What the tree of a number shows at a path: the file that it showed there before, and else what is there now. Where
// it can show the file that was there last, it has shown no other.
#[inline(always)]
fn look<R: Host>(
    alloc: Global,
    host: &R,
    looks: &mut Looks,
    kept: &mut KeptFiles<R::File>,
    path: &[u8],
    of: u64,
) -> Result<Node, Failed> {
    if let Some((place, file)) = kept.find(path, Sought::LastFor(of)) {
        let node = file.node();
        let is_shown = file.is_in(of);
        if !is_shown && kept.has_lost(of) {
            return Err(Failed);
        }
        if is_shown || is_still_there(looks, file) {
            kept.show(place, of);
            return Ok(node);
        }
        kept.pass(place);
        return look_anew(alloc, host, looks, kept, path, of);
    }
    if let Some((place, file)) = kept.find(path, Sought::ShownIn(of)) {
        let node = file.node();
        kept.show(place, of);
        return Ok(node);
    }
    if kept.has_lost(of) {
        return Err(Failed);
    }
    look_anew(alloc, host, looks, kept, path, of)
}

// Whether a file has been neither written nor cut since it was opened.
pub(crate) fn has_same_bytes<F: AsRawFd>(looks: &mut Looks, file: &F, identity: &Identity) -> bool {
    match looks.of(file) {
        Some(found) => Identity::in_statx(found).has_bytes_of(identity),
        None => false,
    }
}

// Keeps the bytes of a small file, which were read just now, unless it was written since it was opened.
#[inline(never)]
fn keep_bytes<F: AsRawFd + Drop>(
    looks: &mut Looks,
    kept: &mut KeptFiles<F>,
    place: Slot,
    bytes: &[u8],
) {
    if let Some(file) = kept.file_mut(place) {
        if has_same_bytes(looks, &file.file, &file.identity) {
            file.keep_bytes(bytes);
        }
    }
}

// How many bytes are copied at once, some 64 vectors. The C library copies more by one instruction for all, which is no faster where
// they are in a cache.
const PIECE: usize = 4032;

// Copies bytes in place of as many others; false where these aren't as many.
#[inline(always)]
fn copy_pieces(bytes: &[u8], into: &mut [u8]) -> bool {
    if bytes.len() != into.len() {
        return false;
    }
    let (pieces, rest) = bytes.as_chunks::<PIECE>();
    let (places, last) = into.as_chunks_mut::<PIECE>();
    for (place, piece) in places.iter_mut().zip(pieces) {
        place.copy_from_slice(piece);
    }
    last.copy_from_slice(rest);
    true
}

// Reads bytes of the kept file of a place, which are lent.
#[inline(always)]
fn read_kept<F: FileExt + AsRawFd + OpenFile + Drop>(
    looks: &mut Looks,
    kept: &mut KeptFiles<F>,
    room: &mut Room,
    place: Slot,
    start: u64,
    count: u64,
    of: u64,
) -> Result<(), FileFault>
    ensures { OnOk result (length room.new ≡ count) }
{
    let Some(file) = kept.file_at(place) else {
        return Err(FileFault::Failed);
    };
    match room.read(looks, file, start, count, of) {
        Ok(()) => {
            if file.lacks_bytes(start, count) {
                keep_bytes(looks, kept, place, room.block());
            }
            kept.read(place, start, count, of);
            Ok(())
        }
        Err(fault) => Err(fault),
    }
}

// Reads bytes of the file that the tree of a number showed at a path, which are lent. One that isn't kept any more can't be
// read: another may be there.
fn read_file<F: FileExt + AsRawFd + OpenFile + Drop>(
    looks: &mut Looks,
    kept: &mut KeptFiles<F>,
    room: &mut Room,
    path: &[u8],
    start: u64,
    count: u64,
    of: u64,
) -> Result<(), FileFault>
    ensures { OnOk result (length room.new ≡ count) }
{
    let Some((place, _)) = kept.find(path, Sought::ShownIn(of)) else {
        return Err(FileFault::Failed);
    };
    read_kept(looks, kept, room, place, start, count, of)
}

// Adds bytes of the file that the tree of a number showed at a path to a queue: from the room those that are read into it, and else such
// as are read to their place in the queue. Where they aren't all of the file, it fails if the file was written since it was opened.
fn read_file_to<F: FileExt + AsRawFd + OpenFile + Drop>(
    looks: &mut Looks,
    kept: &mut KeptFiles<F>,
    room: &mut Room,
    job: Block<'_>,
    out: &mut ByteQueue,
) -> Result<(), FileFault>
    ensures ok { OnOk result ((added : List ℕ) × (length added ≡ job.entry.count)
        × (out.new ≡ out.old ++ added)) }
    ensures err { OnErr result (out.new ≡ out.old) }
{
    let Block {
        path,
        start,
        count,
        of,
    } = job;
    let Some((place, file)) = kept.find(path, Sought::ShownIn(of)) else {
        return Err(FileFault::Failed);
    };
    if is_for_room(file, start, count) {
        read_kept(looks, kept, room, place, start, count, of)?;
        let block = room.block();
        if !out.append_with(block.len(), |into| copy_pieces(block, into))? {
            return Err(FileFault::Failed);
        }
        return Ok(());
    }
    let is_read = out.append_with(count as usize, |into| {
        read_into(&file.file, into, start)
            && (file.is_whole(start, count) || has_same_bytes(looks, &file.file, &file.identity))
    })?;
    if !is_read {
        return Err(FileFault::Failed);
    }
    if file.is_inner(start, count) {
        kept.read_on(place);
    } else {
        kept.read(place, start, count, of);
    }
    Ok(())
}

// Lends all bytes of the file that was shown last, where it is small and keeps them; whether it does.
#[inline(always)]
fn lends_shown<F: Drop>(kept: &KeptFiles<F>, room: &mut Room, len: u64) -> bool {
    match kept.bytes_shown(len) {
        Some(bytes) => room.copy(bytes).is_ok(),
        None => false,
    }
}

// How many files may be kept open: half of the descriptors that the process may have, so that the others are left to links.
fn most_kept() -> usize {
    let mut limit = rlimit {
        rlim_cur: 0,
        rlim_max: 0,
    };
    if libc::getrlimit(libc::RLIMIT_NOFILE, &mut limit) < 0 {
        return FEW;
    }
    let half = limit.rlim_cur / 2;
    half.saturating_sub(DESCRIPTORS_BESIDE)
        .max(1)
        .min(MOST as u64) as usize
}

/// The files of the host. It tells nothing of what the host holds. Each failing call raises the count of faults. What is at a
/// path is asked of the system itself, whose files are those of each host that std knows.
///
/// Files stay open after they were found, and a request reads the file that its tree showed first, whatever has been at the
/// path since. So the number of the newest tree rises whenever that tree has shown a file: a request that starts later asks
/// of a tree that has shown none yet, and is told what is there then. A read fails where its file isn't open any more,
/// or was written since.
#[derive(Drop)]
pub struct HostFiles<R: Host + AllocGlobal + Clone + Drop> {
    host: R,
    looks: Looks,
    kept: KeptFiles<R::File>,
    room: Room,
    newest: u64,
    faults: u64,
}

impl<R: Host + AllocGlobal + Clone + Drop> HostFiles<R> {
    /// The files of a host, none of which is open.
    pub fn new(host: R) -> Result<Self, OutOfMemory> {
        let kept = KeptFiles::new(host.alloc(), most_kept())?;
        let room = Room::new(host.alloc());
        Ok(HostFiles {
            host,
            looks: Looks::new(),
            kept,
            room,
            newest: 0,
            faults: 0,
        })
    }

    fn count_fault(&mut self)
        ensures rose { Rose self.old.faults self.new.faults }
        ensures later { self.old.faults ≤ self.new.faults }
        ensures newest { self.new.newest ≡ self.old.newest }
    {
        self.faults = self.faults.saturating_add(1);
    }

    // The tree of a number has shown a file.
    fn has_shown(&mut self, of: u64)
        ensures newest { self.old.newest ≤ self.new.newest }
        ensures faults { self.new.faults ≡ self.old.faults }
    {
        if of == self.newest {
            self.newest = self.newest.saturating_add(1);
        }
    }
}

// Adds the names of a folder.
fn list_folder<R: Host + AllocGlobal + Clone + Drop>(
    host: &R,
    folder: &str,
    out: &mut ByteTexts,
) -> Result<Listing, FileFault>
    ensures adds { (added : List (List ℕ)) × (out.new ≡ out.old ++ added) }
    ensures missing { IfOk result (λ l. l ≡ Missing → out.new ≡ out.old) }
{
    let entries = match fs::read_dir(host, folder) {
        Ok(entries) => entries,
        Err(error) => {
            return match node_missed(error.kind()) {
                Ok(_) => Ok(Listing::Missing),
                Err(Failed) => Err(FileFault::Failed),
            };
        }
    };
    for entry in entries {
        let Ok(entry) = entry else {
            return Err(FileFault::Failed);
        };
        let name = ByteText::from_slice(host.alloc(), entry.file_name().as_bytes())?;
        out.push(name)?;
    }
    Ok(Listing::Done)
}

impl<R: Host + AllocGlobal + Clone + Drop> Files for HostFiles<R>
where
    R::File: FileExt + AsRawFd,
{
    ghost use Rattle.std.specs.Prelude.{false, None};
    ghost use Rattle.file_tree.specs.Tree.{Nothing};

    ghost seen = { λ f. record {
      tells = false;
      trees = λ _ _. Nothing;
      newest = f.newest;
      block = f.room;
      versions = None;
      answers = None;
      faults = f.faults;
    } };

    fn version(&mut self) -> u64 {
        self.newest
    }

    fn stat(&mut self, path: &[u8], of: u64) -> Result<Node, Failed> {
        let alloc = self.host.alloc();
        match look(alloc, &self.host, &mut self.looks, &mut self.kept, path, of) {
            Ok(node) => {
                if let Node::File { len: _, date: _ } = node {
                    self.has_shown(of);
                }
                Ok(node)
            }
            Err(Failed) => {
                self.count_fault();
                Err(Failed)
            }
        }
    }

    fn look(&mut self, path: &[u8], of: u64) -> Result<Look, Failed> {
        let node = self.stat(path, of)?;
        let whole = match node {
            Node::File { len, date: _ } => lends_shown(&self.kept, &mut self.room, len),
            _ => false,
        };
        Ok(Look { node, whole })
    }

    fn block(&self) -> &[u8] {
        self.room.block()
    }

    fn read_block(
        &mut self,
        path: &[u8],
        start: u64,
        count: u64,
        of: u64,
    ) -> Result<(), FileFault> {
        let (looks, kept) = (&mut self.looks, &mut self.kept);
        match read_file(looks, kept, &mut self.room, path, start, count, of) {
            Ok(()) => Ok(()),
            Err(FileFault::Failed) => {
                self.count_fault();
                Err(FileFault::Failed)
            }
            Err(FileFault::OutOfMemory) => Err(FileFault::OutOfMemory),
        }
    }

    fn read_to(
        &mut self,
        path: &[u8],
        start: u64,
        count: u64,
        of: u64,
        out: &mut ByteQueue,
    ) -> Result<(), FileFault> {
        let job = Block {
            path,
            start,
            count,
            of,
        };
        let (looks, kept) = (&mut self.looks, &mut self.kept);
        match read_file_to(looks, kept, &mut self.room, job, out) {
            Ok(()) => Ok(()),
            Err(FileFault::Failed) => {
                self.count_fault();
                Err(FileFault::Failed)
            }
            Err(FileFault::OutOfMemory) => Err(FileFault::OutOfMemory),
        }
    }

    fn list(&mut self, folder: &[u8], out: &mut ByteTexts) -> Result<Listing, FileFault> {
        let Ok(folder) = str::from_utf8(folder) else {
            return Ok(Listing::Missing);
        };
        match list_folder(&self.host, folder, out) {
            Ok(listing) => Ok(listing),
            Err(FileFault::Failed) => {
                self.count_fault();
                Err(FileFault::Failed)
            }
            Err(FileFault::OutOfMemory) => Err(FileFault::OutOfMemory),
        }
    }
}
