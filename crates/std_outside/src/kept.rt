// The host's files that stay open from one call to the next.
ghost use Rattle.std.specs.Prelude.{◌≡◌, ◌≤◌, ℕ, true, IfSome, length, string_bytes};
ghost use Rattle.std_outside.specs.declared.kept.Sought.TheVariants.{ShownIn};

use byte_text::OutOfMemory;
use file_tree::Node;
use libc::types::{statx, statx_timestamp};
use std::alloc::{AllocError, Global};
use std::fs::Metadata;
use std::os::unix::fs::MetadataExt;

/// This many files are kept open at most.
pub const MOST: usize = 1024;

/// They lie in this many buckets, by the hashes of their paths.
const BUCKETS: usize = 256;

/// A file that is longer, in bytes, is closed once it was read to its end.
const LARGE: u64 = 1048576;

/// One that is no longer keeps its bytes too, once they were read.
const SMALL: u64 = 4096;

/// What tells one state of a file of the host from every other: which file it is, how long, when it was written last, and
/// when its owner, its rights or its names changed last. While a file is open, the host gives its number to no other.
#[derive(Clone, Copy, PartialEq, Eq)]
pub struct Identity {
    device: u64,
    number: u64,
    mode: u32,
    len: u64,
    written: (i64, i64),
    changed: (i64, i64),
}

// The number of a device, as Linux makes it of two numbers, and as `Metadata` has it.
fn device_of(major: u32, minor: u32) -> u64 {
    let (major, minor) = (u64::from(major), u64::from(minor));
    let high = ((major & 0xffff_f000) << 32) | ((minor & 0xffff_ff00) << 12);
    let low = ((major & 0xfff) << 8) | (minor & 0xff);
    high | low
}

fn moment(time: &statx_timestamp) -> (i64, i64) {
    (time.tv_sec, i64::from(time.tv_nsec))
}

impl Identity {
    /// Of a file that is open.
    pub fn of(found: &Metadata) -> Identity {
        Identity {
            device: found.dev(),
            number: found.ino(),
            mode: found.mode(),
            len: found.len(),
            written: (found.mtime(), found.mtime_nsec()),
            changed: (found.ctime(), found.ctime_nsec()),
        }
    }

    /// As the system tells it.
    #[inline(always)]
    pub fn in_statx(found: &statx) -> Identity {
        Identity {
            device: device_of(found.stx_dev_major, found.stx_dev_minor),
            number: found.stx_ino,
            mode: u32::from(found.stx_mode),
            len: found.stx_size,
            written: moment(&found.stx_mtime),
            changed: moment(&found.stx_ctime),
        }
    }

    /// Whether a file that is open was neither written nor cut since. Its rights and its names may have changed, as when
    /// another takes its path.
    pub fn has_bytes_of(&self, earlier: &Identity) -> bool {
        self.len == earlier.len && self.written == earlier.written
    }

    /// What is there: a file's date is in seconds since 1970, and 0 where it was before. What is neither a file nor a folder,
    /// as a socket, can't be read.
    pub fn node(&self) -> Node {
        match self.mode & libc::S_IFMT {
            libc::S_IFREG => Node::File {
                len: self.len,
                date: u64::try_from(self.written.0).unwrap_or(0),
            },
            libc::S_IFDIR => Node::Folder,
            _ => Node::Locked,
        }
    }
}

/// A file that is open: what it was when it was opened, the path where it was, and the first and the last tree that show
/// it there.
#[derive(Drop)]
pub struct KeptFile<F: Drop> {
    pub path: String,
    pub file: F,
    pub identity: Identity,
    first: u64,
    last: u64,
    /// When it was asked for last.
    used: u64,
    /// How many began to read it and didn't read its end yet. Those that were given up stay among them.
    readers: u32,
    /// No later tree shows it.
    past: bool,
    /// No other file that was kept has this number.
    number: u64,
    /// All its bytes, where it is small and they were read; none before.
    bytes: Vec<u8>,
}

impl<F: Drop> KeptFile<F> {
    /// A file that was opened for the tree of a number.
    pub fn new(alloc: Global, path: String, file: F, identity: Identity, of: u64) -> Self {
        KeptFile {
            path,
            file,
            identity,
            first: of,
            last: of,
            used: 0,
            readers: 0,
            past: false,
            number: 0,
            bytes: Vec::new(alloc),
        }
    }

    /// All its bytes, where they are kept and are this many.
    #[inline(always)]
    pub fn bytes(&self, count: u64) -> Option<&[u8]>
        ensures { IfSome result (λ bytes. length bytes.now ≡ count) }
    {
        if self.bytes.len() as u64 == count {
            return Some(self.bytes.as_slice());
        }
        None
    }

    // Whether these are all its bytes, which are to be kept and aren't yet.
    #[inline(always)]
    pub fn lacks_bytes(&self, start: u64, count: u64) -> bool {
        self.bytes.len() as u64 != count && count <= SMALL && self.is_whole(start, count)
    }

    /// Keeps all its bytes. It keeps none where there is no memory for them.
    pub fn keep_bytes(&mut self, bytes: &[u8]) {
        self.bytes.clear();
        if let Err(_) = self.bytes.extend_from_slice(bytes) {
            self.bytes.clear();
        }
    }

    pub fn number(&self) -> u64 {
        self.number
    }

    /// Whether some began to read it and didn't read its end yet.
    pub fn is_read(&self) -> bool {
        self.readers > 0
    }

    /// How many bytes it had when it was opened.
    pub fn len(&self) -> u64 {
        self.identity.len
    }

    pub fn node(&self) -> Node {
        self.identity.node()
    }

    /// Whether `count` bytes from `start` on are all that it has.
    pub fn is_whole(&self, start: u64, count: u64) -> bool {
        start == 0 && count == self.identity.len
    }

    /// Whether `count` bytes from `start` on, which it has, are neither its first nor its last ones.
    #[inline(always)]
    pub fn is_inner(&self, start: u64, count: u64) -> bool {
        start > 0 && start.wrapping_add(count) < self.identity.len
    }

    fn is_at(&self, path: &[u8]) -> bool
        ensures { result ≡ true → string_bytes self.now.path ≡ path.now }
    {
        self.path.as_bytes() == path
    }

    /// Whether the tree of a number showed it.
    pub fn is_in(&self, of: u64) -> bool
        ensures { result ≡ true → (self.now.first ≤ of) × (of ≤ self.now.last) }
    {
        self.first <= of && of <= self.last
    }

    // It is used now, as this is counted, for the tree of a number.
    #[inline(always)]
    fn show(&mut self, uses: u64, of: u64) {
        self.used = uses;
        self.last = self.last.max(of);
    }

    // This many of its bytes were read, from `start` on, for the tree of a number. Whether nobody may need it open any more.
    #[inline(always)]
    fn read(&mut self, start: u64, count: u64, of: u64) -> bool {
        if start == 0 {
            self.readers = self.readers.saturating_add(1);
        }
        if start.saturating_add(count) < self.identity.len {
            return false;
        }
        self.readers = self.readers.saturating_sub(1);
        let is_large = self.identity.len > LARGE && of == self.last;
        self.readers == 0 && (self.past || is_large)
    }

    // Whether it is the file of a path that is sought.
    #[inline(always)]
    fn is_sought(&self, path: &[u8], sought: Sought) -> bool
        ensures path { result ≡ true → string_bytes self.now.path ≡ path.now }
        ensures tree { result ≡ true → (of : ℕ) → sought ≡ ShownIn of →
            (self.now.first ≤ of) × (of ≤ self.now.last) }
    {
        let fits = match sought {
            Sought::ShownIn(of) => self.is_in(of),
            Sought::LastFor(of) => !self.past && self.first <= of,
        };
        fits && self.is_at(path)
    }
}

/// Where a kept file lies.
#[derive(Clone, Copy)]
pub struct Slot {
    bucket: usize,
    at: usize,
}

/// Which file of a path is sought: the one that the tree of a number shows, or the one that was there last, if that tree can
/// show it, and all trees from its own to that one.
#[derive(Clone, Copy)]
pub enum Sought {
    ShownIn(u64),
    LastFor(u64),
}

/// What eight bytes add to a hash: 2^64 over the golden ratio, so that each of them reaches the highest bits.
const SPREAD: u64 = 0x9e37_79b9_7f4a_7c15;

fn mixed(hash: u64, word: u64) -> u64 {
    (hash ^ word).wrapping_mul(SPREAD).rotate_left(23)
}

/// The bucket of a path, whose bytes are hashed eight at a time. The last step has each of them reach the bits that say it.
fn bucket_of(path: &[u8]) -> usize {
    let (words, rest) = path.as_chunks::<8>();
    let mut hash = path.len() as u64;
    for word in words {
        hash = mixed(hash, u64::from_le_bytes(*word));
    }
    for byte in rest {
        hash = mixed(hash, *byte as u64);
    }
    (hash.wrapping_mul(SPREAD) >> 32) as usize % BUCKETS
}

fn empty_buckets<F: Drop>(alloc: Global) -> Result<Vec<Vec<KeptFile<F>>>, AllocError> {
    let mut buckets = Vec::with_capacity(alloc, BUCKETS)?;
    for _ in 0..BUCKETS {
        buckets.push(Vec::new(alloc))?;
    }
    Ok(buckets)
}

/// The file that was used longest ago, among those that were looked at.
#[derive(Clone, Copy)]
struct Oldest {
    place: Slot,
    used: u64,
    count: usize,
}

const NONE_LOOKED_AT: Oldest = Oldest {
    place: Slot { bucket: 0, at: 0 },
    used: u64::MAX,
    count: 0,
};

fn older(oldest: Oldest, place: Slot, used: u64) -> Oldest {
    let count = oldest.count.saturating_add(1);
    if used < oldest.used {
        Oldest { place, used, count }
    } else {
        Oldest { count, ..oldest }
    }
}

/// The files that are kept open. The trees that show the files of one path are others for each of them, so that a request,
/// which asks of one tree, reads one file. Where there is no room for one more, one is closed: the one that was used
/// longest ago of those that nobody reads, if these are an eighth of all or more, and else of all.
#[derive(Drop)]
pub struct KeptFiles<F: Drop> {
    buckets: Vec<Vec<KeptFile<F>>>,
    count: usize,
    most: usize,
    uses: u64,
    near: Slot,
    lost: u64,
}

impl<F: Drop> KeptFiles<F> {
    /// None yet, and at most `most` may be kept.
    pub fn new(alloc: Global, most: usize) -> Result<Self, OutOfMemory> {
        Ok(KeptFiles {
            buckets: empty_buckets(alloc)?,
            count: 0,
            most: most.min(MOST),
            uses: 0,
            near: Slot { bucket: 0, at: 0 },
            lost: 0,
        })
    }

    /// The file of a place.
    pub fn file_at(&self, place: Slot) -> Option<&KeptFile<F>> {
        match self.buckets.get(place.bucket) {
            Some(bucket) => bucket.get(place.at),
            None => None,
        }
    }

    /// The file of a path that is sought, and where it lies. Where the last one lay is looked at first.
    #[inline(always)]
    pub fn find(&self, path: &[u8], sought: Sought) -> Option<(Slot, &KeptFile<F>)>
        ensures path { IfSome result (λ found. string_bytes found.1.now.path ≡ path.now) }
        ensures tree { IfSome result (λ found. (of : ℕ) → sought ≡ ShownIn of →
            (found.1.now.first ≤ of) × (of ≤ found.1.now.last)) }
    {
        if let Some(kept) = self.file_at(self.near) {
            if kept.is_sought(path, sought) {
                return Some((self.near, kept));
            }
        }
        self.find_far(path, sought)
    }

    // The same, in its bucket.
    #[inline(never)]
    fn find_far(&self, path: &[u8], sought: Sought) -> Option<(Slot, &KeptFile<F>)>
        ensures path { IfSome result (λ found. string_bytes found.1.now.path ≡ path.now) }
        ensures tree { IfSome result (λ found. (of : ℕ) → sought ≡ ShownIn of →
            (found.1.now.first ≤ of) × (of ≤ found.1.now.last)) }
    {
        let bucket = bucket_of(path);
        for (at, kept) in self.buckets.get(bucket)?.iter().enumerate() {
            if kept.is_sought(path, sought) {
                return Some((Slot { bucket, at }, kept));
            }
        }
        None
    }

    /// The same, to be changed.
    pub fn file_mut(&mut self, place: Slot) -> Option<&mut KeptFile<F>> {
        self.buckets.get_mut(place.bucket)?.get_mut(place.at)
    }

    /// The file of a place is used now, for the tree of a number.
    pub fn show(&mut self, place: Slot, of: u64) {
        self.uses = self.uses.saturating_add(1);
        self.near = place;
        let uses = self.uses;
        if let Some(kept) = self.file_mut(place) {
            kept.show(uses, of);
        }
    }

    /// All bytes of the file that was shown or read last, where it keeps them, they are this many and are some.
    #[inline(always)]
    pub fn bytes_shown(&self, len: u64) -> Option<&[u8]> {
        if len == 0 {
            return None;
        }
        self.file_at(self.near)?.bytes(len)
    }

    // Closes the file of a place.
    fn close(&mut self, place: Slot) {
        if let Some(bucket) = self.buckets.get_mut(place.bucket) {
            if place.at < bucket.len() {
                bucket.swap_remove(place.at);
                self.count = self.count.saturating_sub(1);
            }
        }
    }

    /// Something else is at the path of a place now, which later trees show. Who reads the file reads on.
    pub fn pass(&mut self, place: Slot) {
        let mut is_read = true;
        if let Some(bucket) = self.buckets.get_mut(place.bucket) {
            if let Some(kept) = bucket.get_mut(place.at) {
                kept.past = true;
                is_read = kept.readers > 0;
            }
        }
        if !is_read {
            self.close(place);
        }
    }

    /// The file of a place is read on: it is looked at first where one is sought next.
    #[inline(always)]
    pub fn read_on(&mut self, place: Slot) {
        self.near = place;
    }

    /// This many bytes were read of the file of a place, from `start` on, for the tree of a number. Who began at the start
    /// reads it until its end was read. Then nobody may need it open any more.
    #[inline(always)]
    pub fn read(&mut self, place: Slot, start: u64, count: u64, of: u64) {
        self.uses = self.uses.saturating_add(1);
        self.near = place;
        let uses = self.uses;
        let is_done = match self.file_mut(place) {
            Some(kept) => {
                kept.show(uses, of);
                kept.read(start, count, of)
            }
            None => false,
        };
        if is_done {
            self.close(place);
        }
    }

    /// Whether a file that the tree of a number showed may have been closed while it was read. Then that tree shows no
    /// further file, since it might show another at the same path.
    pub fn has_lost(&self, of: u64) -> bool {
        of < self.lost
    }

    /// Closes the file that is to make room; whether there was one.
    pub fn give_up(&mut self) -> bool {
        let mut all = NONE_LOOKED_AT;
        let mut unread = NONE_LOOKED_AT;
        for (bucket, files) in self.buckets.iter().enumerate() {
            for (at, kept) in files.iter().enumerate() {
                let place = Slot { bucket, at };
                all = older(all, place, kept.used);
                if kept.readers == 0 {
                    unread = older(unread, place, kept.used);
                }
            }
        }
        let place = if unread.count > all.count / 8 {
            unread.place
        } else {
            all.place
        };
        self.lose(place);
        self.close(place);
        all.count > 0
    }

    /// Closes all files that nobody reads.
    pub fn give_up_unread(&mut self) {
        let mut count: usize = 0;
        for bucket in self.buckets.iter_mut() {
            bucket.retain(|kept| kept.readers > 0);
            count = count.saturating_add(bucket.len());
        }
        self.count = count;
    }

    // The file of a place will be closed. Where it is read, the trees up to its last one have lost it.
    fn lose(&mut self, place: Slot) {
        let mut lost = 0;
        if let Some(kept) = self.file_at(place) {
            if kept.readers > 0 {
                lost = kept.last.saturating_add(1);
            }
        }
        self.lost = self.lost.max(lost);
    }

    // Whether a tree that is later than that of a number shows some file of a path.
    fn is_shown_later(&self, bucket: usize, path: &[u8], of: u64) -> bool {
        match self.buckets.get(bucket) {
            Some(bucket) => bucket.iter().any(|kept| kept.last > of && kept.is_at(path)),
            None => false,
        }
    }

    /// Keeps one more file open. Where a later tree shows another file of its path, none but its own tree shows it.
    pub fn keep(&mut self, kept: KeptFile<F>) -> Result<(), OutOfMemory> {
        if self.count >= self.most {
            self.give_up();
        }
        let bucket = bucket_of(kept.path.as_bytes());
        let past = self.is_shown_later(bucket, kept.path.as_bytes(), kept.first);
        self.uses = self.uses.saturating_add(1);
        let kept = KeptFile {
            past,
            used: self.uses,
            number: self.uses,
            ..kept
        };
        if let Some(files) = self.buckets.get_mut(bucket) {
            files.push(kept)?;
            self.near = Slot {
                bucket,
                at: files.len() - 1,
            };
            self.count = self.count.saturating_add(1);
        }
        Ok(())
    }
}
