// The response to what a request is replied: its head, and its body where that isn't a file.
ghost use Rattle.std.specs.Prelude.{◌≡◌, ◌≤◌, ◌+◌, ◌==◌, ◌++◌, ◌&&◌, [], nat_lt, not, length, IfOk, OnOk, if◌then◌else◌};
ghost use Rattle.ngx_outside.specs.Views.{Start};
ghost use Rattle.answers_meaning.specs.Answers.{refusal};
ghost use Rattle.resp_head.specs.Head.{head_of};
ghost use Rattle.request_reply.specs.request_meaning.Responses.{framing, may_stay};
ghost use Rattle.reply_out.specs.Puts.{head_with, sent_now, content_now, put_now, stays_seen};

use crate::heads::Heads;
use crate::room::OutRoom;
use crate::slot::put;
use crate::terms::{InPhases, Terms, blank};
use byte_text::{ByteQueue, ByteText, OutOfMemory};
use error_page::page_text;
use http_types::Version;
use ngx_pattern::PatternSet;
use req_head::HeadRoom;
use request_reply::{Body, Reply};
use resp_head::ReplyHead;
use site_model::Level;
use std::alloc::Global;

/// What requests work with, one after another: memory, the writer of their responses' heads, and
/// what searches for patterns; and the room of what is over.
#[derive(Drop)]
pub struct Workspace {
    pub alloc: Global,
    heads: Heads,
    /// The room of the heads of requests that are over.
    pub head_room: HeadRoom,
    /// The room of a large response that went out.
    pub out_room: OutRoom,
    /// The room of the bytes of a page that is over, for those of the next one.
    pub page_room: Vec<u8>,
    /// The patterns of the site that is served.
    pub patterns: PatternSet,
    /// The room of a request that is over, for the next one.
    spare: Option<Box<InPhases>>,
}

impl Workspace {
    /// One in which nothing was written. It takes no memory yet.
    pub fn new(alloc: Global, patterns: PatternSet) -> Workspace
        ensures { result.patterns ≡ patterns }
    {
        Workspace {
            alloc,
            heads: Heads::new(alloc),
            head_room: HeadRoom::new(alloc),
            out_room: OutRoom::new(alloc),
            page_room: Vec::new(alloc),
            patterns,
            spare: None,
        }
    }

    /// Room for a request.
    pub fn room(&mut self) -> Result<Box<InPhases>, OutOfMemory>
        ensures { self.new.patterns ≡ self.old.patterns }
    {
        if let Some(request) = self.spare.take() {
            return Ok(request);
        }
        let request = Box::new(self.alloc, blank(self.alloc))?;
        Ok(request)
    }

    /// Takes the room of a request that is over.
    pub fn keep(&mut self, request: Box<InPhases>)
        ensures { self.new.patterns ≡ self.old.patterns }
    {
        put(&mut self.spare, Some(request));
    }
}

/// No more bytes than these are put at once.
const OUTGOING: usize = 65536;

/// Whether the values of a level let the connection stay open after a request that this many others
/// came before (<https://nginx.org/en/docs/http/ngx_http_core_module.html#keepalive_requests>,
/// `#keepalive_timeout`).
fn allows(level: &Level, before: u64) -> bool
    ensures { result ≡ (nat_lt (before + 1) level.now.requests && not (level.now.idle == 0)) }
{
    before < u64::from(level.requests).saturating_sub(1) && level.idle != 0
}

/// Whether the end of a body of known length or not is told before the connection closes (RFC 9112,
/// section 6.3).
fn tells_end(known: bool, version: Version) -> bool
    ensures { result ≡ may_stay (framing known version) }
{
    if known {
        return true;
    }
    match version {
        Version::V10 => false,
        Version::V11 => true,
    }
}

/// Whether the connection stays open after a reply that this level answers.
pub fn stays(terms: Terms, level: &Level, reply: &Reply<'_>) -> bool
    ensures { result ≡ stays_seen terms level.now reply.now }
{
    terms.head_keeps
        && allows(level, terms.before)
        && !(reply.closes || reply.gone)
        && tells_end(reply.known, terms.version)
}

/// What of a body is put with the head; a page is written into `page`.
fn content<'a>(
    body: &'a Body,
    no_body: bool,
    page: &'a mut ByteText,
) -> Result<&'a [u8], OutOfMemory>
    requires { page.old ≡ [] }
    ensures { IfOk result (λ bytes. bytes.now ≡ (if no_body then [] else sent_now body.now)) }
{
    if no_body {
        return Ok(b"");
    }
    match body {
        Body::Nothing => Ok(b""),
        Body::Page(code) => {
            page_text(*code, page)?;
            Ok(page.as_slice())
        }
        Body::Text(text) => Ok(text.as_slice()),
        Body::File => Ok(b""),
    }
}

fn content_unless(no_body: bool, page: &[u8]) -> &[u8]
    ensures { result.now ≡ (if no_body then [] else page.now) }
{
    if no_body {
        return b"";
    }
    page
}

/// Puts a head and a body after what is kept for the peer, as far as there is room for both, and room for what follows.
fn put_parts(out: &mut ByteQueue, head: &[u8], body: &[u8], room: usize) -> Result<(), OutOfMemory>
    ensures put { OnOk result (out.new ≡ out.old ++ (head.now ++ body.now)) }
    ensures fits { OnOk result (length out.new ≤ length out.old + 65536) }
{
    if head.len() > OUTGOING || body.len() > OUTGOING - head.len() {
        return Err(OutOfMemory);
    }
    out.reserve(room)?;
    out.append(head)?;
    out.append(body)?;
    Ok(())
}

/// A head takes no more bytes as a rule.
const HEAD: usize = 512;

/// How much room is made for a response at once, for its head and what follows of a file, so that the queue grows once; none for
/// a small one, which has room where small ones went out before.
fn room_for(body: &Body, no_body: bool, length: Option<u64>) -> usize {
    let length = match body {
        Body::File => length.unwrap_or(0),
        Body::Nothing => 0,
        Body::Page(_) => 0,
        Body::Text(_) => 0,
    };
    if no_body || length <= HEAD as u64 {
        return 0;
    }
    HEAD + length.min(OUTGOING as u64) as usize
}

/// Puts the head of a response, and its body where that isn't a file, after what is kept for the
/// peer: how many bytes of the body these are. A connection that is closed at once is sent nothing.
///
/// # Errors
/// Want of memory, also where head and body have more than 65,536 bytes.
#[tactic(auto, unfolding(crate::specs::Puts::put_now))]
pub fn put_reply(
    space: &mut Workspace,
    out: &mut ByteQueue,
    reply: Reply<'_>,
    terms: Terms,
    keep: bool,
) -> Result<u64, OutOfMemory>
    ensures put { OnOk result (out.new ≡ out.old ++ put_now reply.entry terms keep) }
    ensures fits { OnOk result (length out.new ≤ length out.old + 65536) }
    ensures size { IfOk result (λ size. size ≡ length (content_now reply.entry terms)) }
    ensures kept { space.new.patterns ≡ space.old.patterns }
{
    let Reply {
        status,
        kind,
        length,
        modified,
        location,
        gone,
        body,
        ..
    } = reply;
    let mut page = ByteText::new(space.alloc);
    let bytes = content(&body, terms.no_body, &mut page)?;
    let size = bytes.len() as u64;
    if gone {
        return Ok(size);
    }
    let head = ReplyHead {
        status,
        moment: terms.moment,
        kind: None,
        length,
        modified,
        location,
        chunked: false,
        keep,
    };
    let room = room_for(&body, terms.no_body, length);
    space.out_room.lend(out, room);
    put_parts(out, space.heads.text_of_kind(&head, kind)?, bytes, room)?;
    Ok(size)
}

/// The head of a response whose body comes after it, in chunks or not.
///
/// # Errors
/// Want of memory alone.
pub fn head_alone(
    space: &mut Workspace,
    reply: Reply<'_>,
    terms: Terms,
    chunked: bool,
    keep: bool,
) -> Result<ByteText, OutOfMemory>
    ensures head { IfOk result (λ head. head ≡ head_of (head_with reply.entry terms chunked keep)) }
    ensures kept { space.new.patterns ≡ space.old.patterns }
{
    let Reply {
        status,
        kind,
        length,
        modified,
        location,
        ..
    } = reply;
    let head = ReplyHead {
        status,
        moment: terms.moment,
        kind: None,
        length,
        modified,
        location,
        chunked,
        keep,
    };
    let head = ByteText::from_slice(space.alloc, space.heads.text_of_kind(&head, kind)?)?;
    Ok(head)
}

/// Puts the response to what is no request, or is refused: the built-in page of a code, after which
/// the connection closes. How many bytes of the page these are.
///
/// # Errors
/// Want of memory alone.
#[tactic(auto, unfolding(answers_meaning::specs::Answers::refusal, answers_meaning::specs::Answers::refusal_head))]
pub fn put_refusal(
    space: &mut Workspace,
    out: &mut ByteQueue,
    code: u16,
    moment: u64,
    no_body: bool,
) -> Result<u64, OutOfMemory>
    ensures put { (start : Start) → start.moment ≡ moment
        → OnOk result (out.new ≡ out.old ++ (refusal code start no_body).bytes) }
    ensures fits { OnOk result (length out.new ≤ length out.old + 65536) }
    ensures log { (start : Start) → IfOk result
        (λ size. (code, size) ≡ (refusal code start no_body).log) }
    ensures kept { space.new.patterns ≡ space.old.patterns }
{
    let mut page = ByteText::new(space.alloc);
    page_text(code, &mut page)?;
    let head = ReplyHead {
        status: code,
        moment,
        kind: None,
        length: Some(page.len() as u64),
        modified: None,
        location: None,
        chunked: false,
        keep: false,
    };
    let body = content_unless(no_body, page.as_slice());
    put_parts(
        out,
        space.heads.text_of_kind(&head, Some(b"text/html"))?,
        body,
        0,
    )?;
    Ok(body.len() as u64)
}
