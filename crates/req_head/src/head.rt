// Reading a whole head.
ghost use Rattle.std.specs.Prelude.{◌≡◌, ℕ, ◌≤◌, List, length, IfOk, None};
ghost use Rattle.httparse.specs.Grammar.{RequestHead};
ghost use Rattle.httparse.specs.Spans.{IsRequestAt, IsRequestOf, IsRequestWithin};
ghost use Rattle.req_head.specs.Lines.{lines, whole_lines};
ghost use Rattle.req_head.specs.Reading.{Whole, Wrong, Short, read_request};

use crate::fields::HeadFields;
use crate::find::{Scan, find_head_of_64};
use crate::host::host_of;
use crate::host_bytes::{HostBytes, host_bytes};
use crate::known::{Known, known_of};
use crate::lines::{LIMIT, asks_head, have_too_many, seen_of, whole_lines_of};
use crate::room::{HeadRoom, SpareTexts};
use crate::rules::{body_of, find_fault, keeps, method_of, version_of};
use byte_text::{ByteText, OutOfMemory};
use http_types::{BodyKind, Method, Version};
use httparse::spans::{HeaderSpan, RequestSpans};
use std::alloc::Global;

/// The head of a request, which passed all tests.
#[derive(Drop)]
pub struct Head {
    pub method: Method,
    pub version: Version,
    /// The request target as it was sent.
    pub target: ByteText,
    /// The host of an absolute target, else that of the field Host: in lower case, without the port. Empty where neither
    /// is there.
    pub host: ByteText,
    /// Each field, its value without the white space around it.
    pub fields: HeadFields,
    pub body: BodyKind,
    /// Whether the head alone lets the connection persist.
    pub keep: bool,
}

/// What the bytes at the front of a connection's input decide.
#[derive(Drop)]
pub enum HeadStep {
    /// Nothing yet: more bytes may make them a head.
    More,
    /// A head, and how many bytes it has.
    Head {
        head: Head,
        size: usize,
    },
    /// No head, or one that is refused with this code.
    Bad {
        code: u16,
        /// Whether the first line after empty lines begins with the method HEAD, so that the response has no body.
        no_body: bool,
    },
}

ghost use Rattle.req_head.specs.Heads.{fault_with, head_with};
ghost use Rattle.req_head.specs.HostBytes.{IsLookedAt};
ghost use Rattle.req_head.specs.Known.{IsKnown, first_of};
ghost use Rattle.req_head.specs.Step.{head_step, looked, step_of};

/// The head with these parts.
#[inline(always)]
fn make_head(
    texts: &mut SpareTexts,
    method: &[u8],
    target: &[u8],
    minor: u8,
    known: Known<'_>,
    bytes: HostBytes,
    fields: HeadFields,
) -> Result<Head, OutOfMemory>
    requires known { IsKnown fields known }
    requires bytes { IsLookedAt (first_of known.host) bytes }
    requires passes { fault_with minor target.now fields ≡ None }
    ensures { IfOk result (λ head. head ≡ head_with method.now target.now minor fields) }
{
    let host = host_of(texts, target, known.host, bytes)?;
    Ok(Head {
        method: method_of(texts.alloc, method)?,
        version: version_of(minor),
        target: texts.target(target)?,
        host,
        fields,
        body: body_of(known),
        keep: keeps(minor, known),
    })
}

/// What lines decide that begin no head.
fn refuse(seen: &[u8]) -> HeadStep
    ensures { result ≡ step_of seen.now Wrong }
{
    HeadStep::Bad {
        code: 400,
        no_body: asks_head(seen),
    }
}

/// What lines decide that have no whole head.
fn wait(seen: &[u8]) -> HeadStep
    ensures { result ≡ step_of seen.now Short }
{
    if seen.len() < LIMIT && !have_too_many(seen) {
        HeadStep::More
    } else {
        refuse(seen)
    }
}

/// What the head decides that the spans show in the lines.
#[inline(always)]
fn test_head(
    texts: &mut SpareTexts,
    seen: &[u8],
    text: &[u8],
    slots: &[HeaderSpan],
    spans: &RequestSpans,
) -> Result<HeadStep, OutOfMemory>
    requires short { length text.now ≤ 8192 }
    requires few { spans.now.headers ≤ 64 }
    requires within { IsRequestWithin text.now slots.now spans.now }
    requires of { IsRequestOf text.now slots.now spans.now }
    ensures { IfOk result (λ step. (h : RequestHead) → IsRequestAt text.now slots.now spans.now h
        → step ≡ step_of seen.now (Whole h)) }
{
    let target = spans.path.of(text);
    let shown = &slots[..spans.headers];
    let known = known_of(text, shown);
    let bytes = host_bytes(known.host);
    match find_fault(spans.version, target, known, bytes) {
        Some(code) => Ok(HeadStep::Bad {
            code,
            no_body: asks_head(seen),
        }),
        None => {
            let method = spans.method.of(text);
            let fields = HeadFields::of_spans(texts.fields(), &text[..spans.len], shown)?;
            let head = make_head(texts, method, target, spans.version, known, bytes, fields)?;
            Ok(HeadStep::Head {
                head,
                size: spans.len,
            })
        }
    }
}

// Reads a head where some bytes are held.
fn read_lines(room: &mut HeadRoom, bytes: &[u8]) -> Result<HeadStep, OutOfMemory>
    ensures { IfOk result (λ step. step ≡ head_step bytes.now) }
{
    let seen = seen_of(bytes);
    let text = whole_lines_of(seen);
    match find_head_of_64(text, &mut room.slots) {
        Scan::Short => Ok(wait(seen)),
        Scan::Wrong => Ok(refuse(seen)),
        Scan::Whole(spans) => test_head(&mut room.texts, seen, text, &room.slots, &spans),
        // One field more than a head may have is whole, whether the head is or not.
        Scan::NoRoom => Ok(refuse(seen)),
    }
}

/// Most heads are no longer than this, in bytes.
const COMMON: usize = 2048;

/// Reads a head where more bytes are held than most heads have, as where a body follows: at the front of them first, since
/// what that decides stays as it is.
fn read_long(room: &mut HeadRoom, bytes: &[u8]) -> Result<HeadStep, OutOfMemory>
    requires { 2048 ≤ length bytes.now }
    ensures { IfOk result (λ step. step ≡ head_step bytes.now) }
{
    match read_lines(room, &bytes[..COMMON])? {
        HeadStep::More => {
            let step = read_lines(room, bytes)?;
            Ok(step)
        }
        HeadStep::Head { head, size } => Ok(HeadStep::Head { head, size }),
        HeadStep::Bad { code, no_body } => Ok(HeadStep::Bad { code, no_body }),
    }
}

/// Reads the head of a request at the front of the bytes that a connection holds, in the room of one that is over.
///
/// Looks at no more than 8192 bytes, and parses only those up to the last line feed.
///
/// # Errors
///
/// Want of memory alone.
#[inline(always)]
pub fn read_head_in(room: &mut HeadRoom, bytes: &[u8]) -> Result<HeadStep, OutOfMemory>
    ensures { IfOk result (λ step. step ≡ head_step bytes.now) }
{
    if bytes.is_empty() {
        return Ok(HeadStep::More);
    }
    if bytes.len() > COMMON {
        let step = read_long(room, bytes)?;
        return Ok(step);
    }
    let step = read_lines(room, bytes)?;
    Ok(step)
}

/// The same in new room.
///
/// # Errors
///
/// Want of memory alone.
pub fn read_head(alloc: Global, bytes: &[u8]) -> Result<HeadStep, OutOfMemory>
    ensures { IfOk result (λ step. step ≡ head_step bytes.now) }
{
    let step = read_head_in(&mut HeadRoom::new(alloc), bytes)?;
    Ok(step)
}
