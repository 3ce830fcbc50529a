// What is at a path of the host, as the system tells it.
use libc::PATH_MAX;
use libc::types::statx;
use std::io;
use std::io::ErrorKind;
use std::os::fd::AsRawFd;

// A moment, laid out as in a `statx`.
#[repr(C)]
#[derive(Drop)]
struct Moment {
    seconds: i64,
    nanoseconds: u32,
    unused: i32,
}

// What is found, laid out as a `statx` is. C keeps some of that one's fields for itself, under names that can't be written here,
// so no `statx` can be made of its fields.
#[repr(C)]
#[derive(Drop)]
struct Found {
    mask: u32,
    block_len: u32,
    attributes: u64,
    links: u32,
    user: u32,
    group: u32,
    mode: u16,
    unused: [u16; 1],
    number: u64,
    len: u64,
    blocks: u64,
    attributes_mask: u64,
    read: Moment,
    made: Moment,
    changed: Moment,
    written: Moment,
    named_major: u32,
    named_minor: u32,
    device_major: u32,
    device_minor: u32,
    mount: u64,
    memory_align: u32,
    offset_align: u32,
    rest: [u64; 12],
}

const NO_MOMENT: Moment = Moment {
    seconds: 0,
    nanoseconds: 0,
    unused: 0,
};

const NOTHING: Found = Found {
    mask: 0,
    block_len: 0,
    attributes: 0,
    links: 0,
    user: 0,
    group: 0,
    mode: 0,
    unused: [0; 1],
    number: 0,
    len: 0,
    blocks: 0,
    attributes_mask: 0,
    read: NO_MOMENT,
    made: NO_MOMENT,
    changed: NO_MOMENT,
    written: NO_MOMENT,
    named_major: 0,
    named_minor: 0,
    device_major: 0,
    device_minor: 0,
    mount: 0,
    memory_align: 0,
    offset_align: 0,
    rest: [0; 12],
};

// A `statx` whose bytes are all 0, for the system to fill.
fn nothing_found() -> statx {
    let nothing = NOTHING;
    unsafe { (&raw const nothing as *const statx).read() }
}

/// The room for the path that is looked at, and for what is found there. It stays from one look to the next, so that a look
/// clears and moves nothing, and costs little beside the call of the system.
#[derive(Drop)]
pub struct Looks {
    path: [u8; PATH_MAX],
    found: statx,
}

impl Looks {
    pub fn new() -> Self {
        Looks {
            path: [0; PATH_MAX],
            found: nothing_found(),
        }
    }

    /// What is at a path, and where it names a link, what that leads to. The path is read up to its first 0. Of one that is too
    /// long for the system nothing is asked.
    #[inline(always)]
    pub fn at(&mut self, path: &[u8]) -> Result<&statx, ErrorKind> {
        if path.len() >= PATH_MAX {
            return Err(ErrorKind::InvalidFilename);
        }
        self.path[..path.len()].copy_from_slice(path);
        self.path[path.len()] = 0;
        self.path[PATH_MAX - 1] = 0;
        let (from, fields) = (libc::AT_FDCWD, libc::STATX_BASIC_STATS);
        if unsafe { libc::statx(from, &self.path, 0, fields, &mut self.found) } < 0 {
            return Err(io::Error::from_raw_os_error(os::errno()).kind());
        }
        Ok(&self.found)
    }

    /// What a file is that is open; none where the system doesn't tell it.
    pub fn of(&mut self, file: &impl AsRawFd) -> Option<&statx> {
        self.path[0] = 0;
        self.path[PATH_MAX - 1] = 0;
        let (flags, fields) = (libc::AT_EMPTY_PATH, libc::STATX_BASIC_STATS);
        let from = file.as_raw_fd();
        if unsafe { libc::statx(from, &self.path, flags, fields, &mut self.found) } < 0 {
            return None;
        }
        Some(&self.found)
    }
}
