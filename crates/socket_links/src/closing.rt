// Links that were closed and whose peers may still send.
use crate::slots::{Link, is_wait};
use byte_text::OutOfMemory;
use mio::net::TcpStream;
use std::alloc::Global;
use std::io::Read;
use std::net::Shutdown;
use std::time::{Duration, Instant};

// How many links are kept at most until their peers are done, for how many seconds, and how many bytes of each are read
// and dropped.
const MOST: usize = 128;

const SECONDS: u64 = 5;

const BYTES: usize = 4194304;

// How many bytes are read at once, and how often at a time.
const PIECE: usize = 16384;

const READS: u32 = 512;

/// A link that is written no more, and how many bytes of it may still be dropped.
#[derive(Drop)]
struct Closing {
    link: Link,
    since: Instant,
    left: usize,
}

/// The links that were closed and whose peers may still send. Where a socket is closed with input that wasn't read, the
/// system resets the connection, and the peer may lose the end of what was written (RFC 9112, section 9.6). So nothing
/// more is written, what comes is read and dropped, and the socket is closed once the peer is done, or after a while.
#[derive(Drop)]
pub struct ClosingLinks {
    links: Vec<Closing>,
    piece: Vec<u8>,
}

// Reads what has come and drops it; whether more is awaited.
fn drop_input(mut stream: &TcpStream, piece: &mut [u8], left: &mut usize) -> bool {
    for _ in 0..READS {
        match stream.read(piece) {
            Ok(count) => {
                if count == 0 || count >= *left {
                    return false;
                }
                *left -= count;
            }
            Err(error) => return is_wait(&error),
        }
    }
    false
}

impl ClosingLinks {
    /// None.
    pub fn new(alloc: Global) -> Result<Self, OutOfMemory> {
        Ok(ClosingLinks {
            links: Vec::with_capacity(alloc, MOST)?,
            piece: Vec::from_elem(alloc, 0u8, PIECE)?,
        })
    }

    pub fn is_empty(&self) -> bool {
        self.links.is_empty()
    }

    /// Closes the link that has been here for the longest time.
    pub fn give_up(&mut self) {
        if !self.links.is_empty() {
            self.links.remove(0);
        }
    }

    /// A link that is written no more: it is closed as soon as its peer is done. Where all that came was read, and what comes next is
    /// an event of its own, it isn't read before that.
    pub fn add(&mut self, link: Link, now: Instant, is_drained: bool) {
        let mut left = BYTES;
        if link.stream.shutdown(Shutdown::Write).is_err() {
            return;
        }
        if !is_drained && !drop_input(&link.stream, self.piece.as_mut_slice(), &mut left) {
            return;
        }
        if self.links.len() >= MOST {
            self.give_up();
        }
        // There is room; without memory the link is closed.
        let _kept = self.links.push(Closing {
            link,
            since: now,
            left,
        });
    }

    /// Something came on a link, if it is one of these.
    pub fn hear(&mut self, id: u32) {
        for at in 0..self.links.len() {
            if self.links[at].link.id == id {
                let closing = &mut self.links[at];
                if !drop_input(
                    &closing.link.stream,
                    self.piece.as_mut_slice(),
                    &mut closing.left,
                ) {
                    self.links.remove(at);
                }
                return;
            }
        }
    }

    /// Closes those that have been here for long enough: the first ones are here for the longest time.
    pub fn expire(&mut self, now: Instant) {
        let most = Duration::from_secs(SECONDS);
        if let Some(closing) = self.links.first() {
            if now.duration_since(closing.since) < most {
                return;
            }
        }
        self.links
            .retain(|closing| now.duration_since(closing.since) < most);
    }
}
