// The head of a response.
ghost use Rattle.std.specs.Prelude.{◌≡◌, ◌++◌, OnOk, false};
ghost use Rattle.resp_head.specs.Head.{is_bodiless as has_no_body, field_lines, type_fields, length_fields, modified_fields, location_fields, transfer_fields, rest_lines, head_of};
ghost use Rattle.resp_head.specs.Lent.{of_kind};
ghost use Rattle.resp_head.specs.Front.{front_lines, IsFront};

use crate::lines::{
    put_chunked, put_date, put_end, put_length, put_modified, put_status_line, put_target, put_type,
};
use byte_text::{ByteText, OutOfMemory};
use http_moment::{DateCache, date_text};
use std::alloc::Global;

/// What the head of a response says.
#[derive(Clone, Debug, Drop)]
pub struct ReplyHead {
    pub status: u16,
    /// The second of Date, since the beginning of 1970.
    pub moment: u64,
    /// The media type of Content-Type. A byte that a field's value may not have is written as a space.
    pub kind: Option<ByteText>,
    /// The length of the content, where it is known.
    pub length: Option<u64>,
    /// The second of Last-Modified.
    pub modified: Option<u64>,
    /// The target of Location. Bytes up to the space and from 0x7F on are written as percent escapes.
    pub location: Option<ByteText>,
    /// Whether content of unknown length is sent in chunks.
    pub chunked: bool,
    /// Whether the connection stays open after the response.
    pub keep: bool,
}

/// The bytes of every part of a head but its Content-Type and its Location, at most.
const FIXED_PARTS: usize = 320;

/// Whether a response of this status has no content (RFC 9110, 15.3.5 and 15.4.5).
#[tactic(auto, unfolding(crate::specs::Head::is_bodiless))]
fn is_bodiless(status: u16) -> bool
    ensures { result ≡ has_no_body status }
{
    status == 204 || status == 304
}

#[tactic(auto, unfolding(crate::specs::Head::type_fields, crate::specs::Head::field_lines, crate::specs::Head::optional))]
fn put_type_of(head: &ReplyHead, kind: Option<&[u8]>, out: &mut ByteText) -> Result<(), OutOfMemory>
    ensures { OnOk result (out.new
        ≡ out.old ++ field_lines (type_fields (of_kind head.now kind.entry))) }
{
    if is_bodiless(head.status) {
        return Ok(());
    }
    match kind {
        Some(kind) => {
            put_type(kind, out)?;
            Ok(())
        }
        None => Ok(()),
    }
}

#[tactic(auto, unfolding(crate::specs::Head::length_fields, crate::specs::Head::field_lines, crate::specs::Head::optional))]
fn put_length_of(head: &ReplyHead, out: &mut ByteText) -> Result<(), OutOfMemory>
    ensures { OnOk result (out.new ≡ out.old ++ field_lines (length_fields head.now)) }
{
    if is_bodiless(head.status) {
        return Ok(());
    }
    match head.length {
        Some(length) => {
            put_length(length, out)?;
            Ok(())
        }
        None => Ok(()),
    }
}

#[tactic(auto, unfolding(crate::specs::Head::modified_fields, crate::specs::Head::field_lines, crate::specs::Head::optional))]
fn put_modified_of(
    head: &ReplyHead,
    dates: &mut DateCache,
    out: &mut ByteText,
) -> Result<(), OutOfMemory>
    ensures { OnOk result (out.new ≡ out.old ++ field_lines (modified_fields head.now)) }
{
    match head.modified {
        Some(secs) => {
            put_modified(dates.date_text(secs), out)?;
            Ok(())
        }
        None => Ok(()),
    }
}

#[tactic(auto, unfolding(crate::specs::Head::location_fields, crate::specs::Head::field_lines, crate::specs::Head::optional))]
fn put_location_of(head: &ReplyHead, out: &mut ByteText) -> Result<(), OutOfMemory>
    ensures { OnOk result (out.new ≡ out.old ++ field_lines (location_fields head.now)) }
{
    match &head.location {
        Some(to) => {
            put_target(to.as_slice(), out)?;
            Ok(())
        }
        None => Ok(()),
    }
}

#[tactic(auto, unfolding(crate::specs::Head::transfer_fields, crate::specs::Head::field_lines))]
fn put_transfer_of(head: &ReplyHead, out: &mut ByteText) -> Result<(), OutOfMemory>
    ensures { OnOk result (out.new ≡ out.old ++ field_lines (transfer_fields head.now)) }
{
    if head.chunked && !(is_bodiless(head.status) || head.length.is_some()) {
        put_chunked(out)?;
        Ok(())
    } else {
        Ok(())
    }
}

/// The most bytes that a head takes with this media type.
fn most_bytes(head: &ReplyHead, kind: Option<&[u8]>) -> usize {
    let kind = match kind {
        Some(kind) => kind.len(),
        None => 0,
    };
    let location = match &head.location {
        Some(to) => to.len(),
        None => 0,
    };
    location
        .saturating_mul(3)
        .saturating_add(kind)
        .saturating_add(FIXED_PARTS)
}

/// The media type of a head, lent.
fn kind_of(head: &ReplyHead) -> Option<&[u8]>
    ensures { of_kind head.now result ≡ head.now }
{
    match &head.kind {
        Some(kind) => Some(kind.as_slice()),
        None => None,
    }
}

/// All after Date, with this media type. `dates` keeps the text of Last-Modified.
#[tactic(auto, unfolding(crate::specs::Head::rest_lines))]
fn put_rest(
    head: &ReplyHead,
    kind: Option<&[u8]>,
    dates: &mut DateCache,
    out: &mut ByteText,
) -> Result<(), OutOfMemory>
    ensures { OnOk result (out.new ≡ out.old ++ rest_lines (of_kind head.now kind.entry)) }
{
    put_type_of(head, kind, out)?;
    put_length_of(head, out)?;
    put_modified_of(head, dates, out)?;
    put_location_of(head, out)?;
    put_transfer_of(head, out)?;
    put_end(head.keep, out)?;
    Ok(())
}

/// The status line, Server and Date.
fn put_front(status: u16, date: &[u8; 29], out: &mut ByteText) -> Result<(), OutOfMemory>
    ensures { OnOk result (out.new ≡ out.old ++ front_lines status date.now) }
{
    put_status_line(status, out)?;
    put_date(date, out)?;
    Ok(())
}

/// Appends the head of a response (RFC 9112, 4 and 5): the status line, Server, Date, Content-Type, Content-Length,
/// Last-Modified, Location, Transfer-Encoding and Connection, as far as they apply, and the empty line. `out` grows
/// once at most. After want of memory it holds some part of the head.
pub fn head_text(head: &ReplyHead, out: &mut ByteText) -> Result<(), OutOfMemory>
    ensures { OnOk result (out.new ≡ out.old ++ head_of head.now) }
{
    let kind = kind_of(head);
    out.reserve(most_bytes(head, kind))?;
    put_front(head.status, &date_text(head.moment), out)?;
    put_rest(head, kind, &mut DateCache::new(head.moment), out)?;
    Ok(())
}

impl ReplyHead {
    /// The head of the same response to a HEAD request, which names no transfer coding.
    pub fn for_head(self) -> ReplyHead
        ensures { result ≡ record self { chunked = false } }
    {
        ReplyHead {
            chunked: false,
            ..self
        }
    }
}

/// What heads of one status and one second begin with, and how many bytes these are: the status line, Server and Date.
#[derive(Clone, Copy, Debug, PartialEq, Eq)]
pub struct Front {
    status: u16,
    moment: u64,
    len: usize,
}

/// Writes the heads of responses, one after another: each into the room of the one before, of which the front stays where
/// it is the same, and the dates of a second once.
#[derive(Drop)]
pub struct HeadWriter {
    dates: DateCache,
    modified: DateCache,
    text: ByteText,
    front: Option<Front>,
    ghost kept: { IsFront front text },
}

impl HeadWriter {
    ghost use Rattle.std.specs.Prelude.{◌≡◌, None, length, IfOk};
    ghost use Rattle.http_moment.specs.Moment.{date_of};
    ghost use Rattle.resp_head.specs.Head.{head_of};
    ghost use Rattle.resp_head.specs.Lent.{of_kind};
    ghost use Rattle.resp_head.specs.Front.{front_lines};

    /// A writer that wrote nothing. It takes no memory yet.
    pub fn new(alloc: Global) -> HeadWriter {
        HeadWriter {
            dates: DateCache::new(0),
            modified: DateCache::new(0),
            text: ByteText::new(alloc),
            front: None,
        }
    }

    /// The front of a head, and nothing else, in the room.
    fn take_front(&mut self, status: u16, moment: u64) -> Result<Front, OutOfMemory>
        ensures text { IfOk result (λ f. self.new.text ≡ front_lines status (date_of moment)) }
        ensures len { IfOk result (λ f. f.len ≡ length self.new.text) }
        ensures is { IfOk result (λ f. f.status ≡ status) }
        ensures at { IfOk result (λ f. f.moment ≡ moment) }
        ensures none { self.new.front ≡ None }
    {
        if let Some(front) = self.front {
            if front.status == status && front.moment == moment {
                self.front = None;
                self.text.truncate(front.len);
                return Ok(front);
            }
        }
        self.front = None;
        self.text.clear();
        put_front(status, self.dates.date_text(moment), &mut self.text)?;
        Ok(Front {
            status,
            moment,
            len: self.text.len(),
        })
    }

    /// The head of a response, as [`head_text`] appends it.
    ///
    /// # Errors
    ///
    /// Want of memory alone, where no head before was as long.
    pub fn text(&mut self, head: &ReplyHead) -> Result<&[u8], OutOfMemory>
        ensures { IfOk result (λ text. text.now ≡ head_of head.now) }
    {
        let text = self.text_of_kind(head, kind_of(head))?;
        Ok(text)
    }

    /// The same with this media type in place of the head's own, which need not be copied for it.
    ///
    /// # Errors
    ///
    /// Want of memory alone, where no head before was as long.
    #[inline(always)]
    pub fn text_of_kind(
        &mut self,
        head: &ReplyHead,
        kind: Option<&[u8]>,
    ) -> Result<&[u8], OutOfMemory>
        ensures { IfOk result (λ text. text.now ≡ head_of (of_kind head.now kind.entry)) }
    {
        let front = self.take_front(head.status, head.moment)?;
        self.text.reserve(most_bytes(head, kind))?;
        put_rest(head, kind, &mut self.modified, &mut self.text)?;
        self.front = Some(front);
        Ok(self.text.as_slice())
    }
}
