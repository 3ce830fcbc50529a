// The scan of bytes that may go on.
ghost use Rattle.std.specs.Prelude.{◌≡◌, ℕ, ◌+◌, ◌-◌, ◌<◌, ◌≤◌, ◌++◌, [], ◌∷◌, length, take, drop, map, IfOk, IfSome, IfNone, MatchOption, IsTrue, true, false};
ghost use Rattle.ssi_text.specs.Marks.{Byte, marks, part_marks};
ghost use Rattle.ssi_text.specs.Moves.{Moved};
ghost use Rattle.ssi_text.specs.Split.{split, with_text, limit, begins, begun as begun_front, front, opening};
ghost use Rattle.ssi_text.specs.Commands.{Outside, size};

use crate::command::made;
use crate::part::{Front, Part};
use crate::place::{Begun, begins_with, rest_of, size_of_command};
use crate::read::read_command;
use byte_text::{ByteText, OutOfMemory};
use memchr::{memchr, memmem};
use std::alloc::Global;

/// The most bytes that a command has.
const LIMIT: usize = 8192;

/// Whether the byte at this place is the last of a `<!--#`.
fn ends_opening(bytes: &[u8], at: usize) -> bool
    requires { at < length bytes.now }
    ensures yes { IsTrue result → (4 ≤ at)
        × (Begun.Yes ≡ begins opening (drop (at - 4) bytes.now)) }
    ensures no { result ≡ false → 4 ≤ at
        → Begun.Yes ≡ begins opening (drop (at - 4) bytes.now) → ⊥ }
{
    if at < 4 {
        return false;
    }
    match begins_with(b"<!--#", rest_of(bytes, at - 4)) {
        Begun::Yes => true,
        Begun::No => false,
        Begun::Maybe => false,
    }
}

/// How many bytes of text come first. A `#` is rare, so the first one mostly ends a `<!--#`; only where it doesn't is
/// all of that searched for.
fn text_len(bytes: &[u8]) -> usize
    ensures within { result ≤ length bytes.now }
    ensures text { split 0 bytes.now
        ≡ with_text (take result bytes.now) (split 0 (drop result bytes.now)) }
{
    match memchr(b'#', bytes) {
        Some(at) => {
            if ends_opening(bytes, at) {
                at - 4
            } else {
                text_len_to_opening(bytes)
            }
        }
        None => text_len_at_end(bytes),
    }
}

/// The same by a search for `<!--#`.
fn text_len_to_opening(bytes: &[u8]) -> usize
    ensures within { result ≤ length bytes.now }
    ensures text { split 0 bytes.now
        ≡ with_text (take result bytes.now) (split 0 (drop result bytes.now)) }
{
    match memmem::find(bytes, b"<!--#") {
        Some(at) => at,
        None => text_len_at_end(bytes),
    }
}

/// The same where the bytes have no `<!--#`: all but what may be the beginning of one.
fn text_len_at_end(bytes: &[u8]) -> usize
    requires { (k : ℕ) → k + 5 ≤ length bytes.now → front (drop k bytes.now) ≡ Front.Plain }
    ensures within { result ≤ length bytes.now }
    ensures text { split 0 bytes.now
        ≡ with_text (take result bytes.now) (split 0 (drop result bytes.now)) }
{
    let len = bytes.len();
    for at in len.saturating_sub(4)..len {
        match begins_with(b"<!--#", rest_of(bytes, at)) {
            Begun::No => {}
            Begun::Yes => return at,
            Begun::Maybe => return at,
        }
    }
    len
}

/// Whether all bytes are text, whatever comes after them.
pub fn is_text(bytes: &[u8]) -> bool
    ensures { result ≡ true → split 0 bytes.now ≡ (map Byte bytes.now, []) }
{
    text_len(bytes) == bytes.len()
}

/// As many of the bytes as a command may have.
fn first_bytes(bytes: &[u8]) -> &[u8]
    ensures value { result.now ≡ take limit bytes.now }
    ensures len { 5 ≤ length bytes.now → 5 ≤ length result.now }
    ensures within { length result.now ≤ length bytes.now }
{
    if bytes.len() > LIMIT {
        &bytes[..LIMIT]
    } else {
        bytes
    }
}

/// What comes after `<!--#`, as far as a command goes.
fn behind_opening(bytes: &[u8]) -> &[u8]
    requires { 5 ≤ length bytes.now }
    ensures value { result.now ≡ drop 5 (take limit bytes.now) }
    ensures len { length result.now + 5 ≤ length bytes.now }
{
    let first = first_bytes(bytes);
    rest_of(first, 5)
}

/// The inside of a command, which has `size` bytes after `<!--#`.
fn inside_of(bytes: &[u8], size: usize) -> &[u8]
    requires { 5 + size ≤ length bytes.now }
    ensures { result.now ≡ take (size - 3) (drop 5 bytes.now) }
{
    let inside = rest_of(bytes, 5);
    &inside[..size.saturating_sub(3)]
}

/// What a command is that has begun: its end is searched for, and then its inside read.
// Most commands are read as they come, so this is seldom called.
#[inline(never)]
fn searched(alloc: Global, bytes: &[u8]) -> Result<Front, OutOfMemory>
    requires { 5 ≤ length bytes.now }
    ensures { IfOk result (λ found. found
        ≡ begun_front bytes.now (size Outside (drop 5 (take limit bytes.now)))) }
{
    match size_of_command(behind_opening(bytes)) {
        Some(n) => {
            let part = made(alloc, inside_of(bytes, n))?;
            Ok(Front::Whole(part, 5 + n))
        }
        None => {
            if bytes.len() >= LIMIT {
                Ok(Front::Whole(Part::Bad, LIMIT))
            } else {
                Ok(Front::Open)
            }
        }
    }
}

/// What a command is that has begun.
fn begun(alloc: Global, bytes: &[u8]) -> Result<Front, OutOfMemory>
    requires { 5 ≤ length bytes.now }
    ensures { IfOk result (λ found. found
        ≡ begun_front bytes.now (size Outside (drop 5 (take limit bytes.now)))) }
{
    match read_command(alloc, behind_opening(bytes))? {
        Some((part, n)) => Ok(Front::Whole(part, 5 + n)),
        None => {
            let found = searched(alloc, bytes)?;
            Ok(found)
        }
    }
}

/// What is at the front.
fn front_of(alloc: Global, bytes: &[u8]) -> Result<Front, OutOfMemory>
    ensures { IfOk result (λ found. found ≡ front bytes.now) }
{
    match begins_with(b"<!--#", bytes) {
        Begun::Yes => {
            let found = begun(alloc, bytes)?;
            Ok(found)
        }
        Begun::No => Ok(Front::Plain),
        Begun::Maybe => Ok(Front::Open),
    }
}

/// Adds a part.
#[inline(always)]
pub fn push_part(out: &mut Vec<Part>, part: Part) -> Result<(), OutOfMemory>
    ensures { IfOk result (λ _. marks out.new.items ≡ marks out.old.items ++ part_marks part) }
{
    out.push(part)?;
    Ok(())
}

/// Adds text, if there is some.
pub fn push_text(alloc: Global, bytes: &[u8], out: &mut Vec<Part>) -> Result<(), OutOfMemory>
    ensures { IfOk result (λ _. marks out.new.items ≡ marks out.old.items ++ map Byte bytes.now) }
{
    if bytes.is_empty() {
        return Ok(());
    }
    let text = ByteText::from_slice(alloc, bytes)?;
    push_part(out, Part::Text(text))?;
    Ok(())
}

/// Takes the text that comes first.
fn take_text(alloc: Global, bytes: &[u8], out: &mut Vec<Part>) -> Result<usize, OutOfMemory>
    ensures within { IfOk result (λ n. n ≤ length bytes.now) }
    ensures moved { IfOk result (λ n. Moved (marks out.old.items) (marks out.new.items) bytes.now
        (drop n bytes.now)) }
{
    let len = text_len(bytes);
    push_text(alloc, &bytes[..len], out)?;
    Ok(len)
}

/// Takes what is at the front: nothing, where it is open.
#[inline(never)]
fn take_front(alloc: Global, bytes: &[u8], out: &mut Vec<Part>) -> Result<usize, OutOfMemory>
    requires { 0 < length bytes.now }
    ensures within { IfOk result (λ n. n ≤ length bytes.now) }
    ensures moved { IfOk result (λ n. Moved (marks out.old.items) (marks out.new.items) bytes.now
        (drop n bytes.now)) }
    ensures open { IfOk result (λ n. n ≡ 0 → split 0 bytes.now ≡ ([], bytes.now)) }
{
    match front_of(alloc, bytes)? {
        Front::Open => Ok(0),
        Front::Plain => {
            push_text(alloc, &bytes[..1], out)?;
            Ok(1)
        }
        Front::Whole(part, n) => {
            push_part(out, part)?;
            Ok(n)
        }
    }
}

/// Puts out what the bytes decide, and answers how many bytes that is.
pub fn split_bytes(alloc: Global, bytes: &[u8], out: &mut Vec<Part>) -> Result<usize, OutOfMemory>
    ensures within { IfOk result (λ n. n ≤ length bytes.now) }
    ensures out { IfOk result (λ n. marks out.new.items
        ≡ marks out.old.items ++ (split 0 bytes.now).0) }
    ensures undecided { IfOk result (λ n. drop n bytes.now ≡ (split 0 bytes.now).1) }
{
    let mut at = 0;
    while at < bytes.len() {
        at += take_text(alloc, rest_of(bytes, at), out)?;
        if at == bytes.len() {
            return Ok(at);
        }
        let used = take_front(alloc, rest_of(bytes, at), out)?;
        if used == 0 {
            return Ok(at);
        }
        at += used;
    }
    Ok(at)
}
