// Links in slots, under ids that are never used twice.
ghost use Rattle.std.specs.Prelude.{◌≡◌, ◌≢◌, ◌<◌, ◌%◌, ℕ, false, true, length, slice_index, slice_index_or, IfSome, None};
ghost use Rattle.ngx_outside.specs.Linked.{GotWithin, Marked, PutWithin};
ghost use Rattle.socket_links.specs.Slots.{IsNext, IsSomePut, is_at, open_in, used_in};

use mio::net::TcpStream;
use ngx_outside::{Input, Output};
use std::io::{Read, Write};
use std::{io, mem};

/// How many slots there are.
pub const SLOTS: u32 = 1024;

/// How many links a slot has in all: this many ids lead to it.
const LINKS_OF_SLOT: u32 = 4194304;

/// A link, under its id.
#[derive(Drop)]
pub struct Link {
    pub id: u32,
    pub stream: TcpStream,
}

/// The number of the slot of an id.
pub fn slot_of(id: u32) -> usize
    ensures { result ≡ id % 1024 }
{
    (id % SLOTS) as usize
}

fn is_link(link: &Option<Link>, id: u32) -> bool
    ensures { result ≡ is_at link.now id }
{
    match link {
        Some(link) => link.id == id,
        None => false,
    }
}

/// Whether the link of an id is open.
pub fn is_open(links: &[Option<Link>], id: u32) -> bool
    ensures { result ≡ open_in links.now id }
{
    let slot = slot_of(id);
    if slot < links.len() {
        is_link(&links[slot], id)
    } else {
        false
    }
}

/// Whether a slot has ids left for further links.
pub fn has_ids(counts: &[u32], slot: usize) -> bool {
    slot < counts.len() && counts[slot] < LINKS_OF_SLOT
}

/// The id of the next link of a slot; none where it has one, or had as many as it may.
pub fn next_id(counts: &[u32], links: &[Option<Link>], slot: u32) -> Option<u32>
    ensures { IfSome result (λ id. IsNext counts.now links.now id) }
{
    let at = slot as usize;
    if slot >= SLOTS || at >= counts.len() || at >= links.len() {
        return None;
    }
    let count = counts[at];
    if count >= LINKS_OF_SLOT {
        return None;
    }
    match &links[at] {
        Some(_) => None,
        None => Some(count * SLOTS + slot),
    }
}

/// Puts a link into its slot.
pub fn open_at(counts: &mut [u32], links: &mut [Option<Link>], id: u32, stream: TcpStream)
    requires { IsNext counts.old links.old id }
    ensures unused { used_in counts.old id ≡ false }
    ensures used { Marked id true (used_in counts.old) (used_in counts.new) }
    ensures shut { open_in links.old id ≡ false }
    ensures open { Marked id true (open_in links.old) (open_in links.new) }
{
    let slot = slot_of(id);
    counts[slot] = id / SLOTS + 1;
    links[slot] = Some(Link { id, stream });
}

/// Takes a link out of its slot, if it is open.
pub fn take_at(links: &mut [Option<Link>], id: u32) -> Option<Link>
    ensures { Marked id false (open_in links.old) (open_in links.new) }
{
    if is_open(links, id) {
        mem::replace(&mut links[slot_of(id)], None)
    } else {
        None
    }
}

/// Whether a call on a socket would have had to wait.
pub fn is_wait(error: &io::Error) -> bool {
    error.kind() == io::ErrorKind::WouldBlock
}

fn read_stream(mut stream: &TcpStream, buf: &mut [u8]) -> Input
    ensures { GotWithin result (length buf.new) }
{
    match stream.read(buf) {
        Ok(0) => Input::End,
        Ok(count) => Input::Got(count),
        Err(error) => {
            if is_wait(&error) {
                Input::NotYet
            } else {
                Input::Failed
            }
        }
    }
}

/// Reads a link; one that isn't open gives nothing.
pub fn read_at(links: &[Option<Link>], id: u32, buf: &mut [u8]) -> Input
    ensures { GotWithin result (length buf.new) }
{
    let slot = slot_of(id);
    if slot >= links.len() {
        return Input::NotYet;
    }
    match &links[slot] {
        Some(link) => {
            if link.id == id {
                read_stream(&link.stream, buf)
            } else {
                Input::NotYet
            }
        }
        None => Input::NotYet,
    }
}

// A socket that takes none of some bytes has failed.
fn write_stream(mut stream: &TcpStream, bytes: &[u8]) -> Output
    ensures within { PutWithin result (length bytes.now) }
    ensures some { IsSomePut result bytes.now }
{
    match stream.write(bytes) {
        Ok(count) => {
            if count == 0 && !bytes.is_empty() {
                Output::Failed
            } else {
                Output::Put(count)
            }
        }
        Err(error) => {
            if is_wait(&error) {
                Output::NotYet
            } else {
                Output::Failed
            }
        }
    }
}

/// Writes to a link; one that isn't open takes nothing.
pub fn write_at(links: &[Option<Link>], id: u32, bytes: &[u8]) -> Output
    ensures within { PutWithin result (length bytes.now) }
    ensures some { IsSomePut result bytes.now }
{
    let slot = slot_of(id);
    if slot >= links.len() {
        return Output::NotYet;
    }
    match &links[slot] {
        Some(link) => {
            if link.id == id {
                write_stream(&link.stream, bytes)
            } else {
                Output::NotYet
            }
        }
        None => Output::NotYet,
    }
}
