// The heads of responses, of which one that is asked for again and again is written once.
ghost use Rattle.std.specs.Prelude.{◌≡◌, IfOk, OnOk, true, None, option_map};
ghost use Rattle.resp_head.specs.Head.{head_of};
ghost use Rattle.resp_head.specs.Lent.{of_kind};
ghost use Rattle.reply_out.specs.Kept.{IsKept};

use crate::slot::put;
use byte_text::{ByteText, OutOfMemory};
use resp_head::{HeadWriter, ReplyHead};
use std::alloc::Global;

/// Whether two numbers are the same, or neither is known.
fn is_same(one: Option<u64>, other: Option<u64>) -> bool
    ensures { result ≡ true → one ≡ other }
{
    match one {
        Some(one) => match other {
            Some(other) => one == other,
            None => false,
        },
        None => other.is_none(),
    }
}

/// Whether a media type is that of a head.
fn is_kind(own: &Option<ByteText>, kind: Option<&[u8]>) -> bool
    ensures { result ≡ true → own.now ≡ option_map (λ k. k.now) kind.entry }
{
    match own {
        Some(own) => match kind {
            Some(kind) => own.as_slice() == kind,
            None => false,
        },
        None => kind.is_none(),
    }
}

/// Whether a head has the same fields that tell of a file, and of the second: what differs first between one head and another.
fn is_like(last: &ReplyHead, head: &ReplyHead) -> bool
    ensures length { result ≡ true → last.now.length ≡ head.now.length }
    ensures modified { result ≡ true → last.now.modified ≡ head.now.modified }
    ensures moment { result ≡ true → last.now.moment ≡ head.now.moment }
    ensures status { result ≡ true → last.now.status ≡ head.now.status }
{
    is_same(last.length, head.length)
        && is_same(last.modified, head.modified)
        && last.moment == head.moment
        && last.status == head.status
}

/// Whether a head with this media type is one that is kept. None with a Location is.
fn is_last(last: &ReplyHead, head: &ReplyHead, kind: Option<&[u8]>) -> bool
    ensures { result ≡ true → last.now ≡ of_kind head.now kind.entry }
{
    is_like(last, head)
        && last.location.is_none()
        && head.location.is_none()
        && last.chunked == head.chunked
        && last.keep == head.keep
        && is_kind(&last.kind, kind)
}

/// What is known of a head at first sight.
#[derive(Clone, Copy)]
struct Glance {
    status: u16,
    moment: u64,
    length: Option<u64>,
}

/// Writes the heads of responses, and keeps one that was asked for twice in turn: while the next ones say the same, it
/// isn't written again.
#[derive(Drop)]
pub(crate) struct Heads {
    writer: HeadWriter,
    alloc: Global,
    /// The head before.
    before: Glance,
    last: Option<ReplyHead>,
    text: ByteText,
    ghost kept: { IsKept last text },
}

impl Heads {
    ghost use Rattle.std.specs.Prelude.{◌≡◌, IfOk, OnOk, true, None, option_map};
    ghost use Rattle.resp_head.specs.Head.{head_of};
    ghost use Rattle.resp_head.specs.Lent.{of_kind};

    /// One that wrote nothing. It takes no memory yet.
    pub(crate) fn new(alloc: Global) -> Heads {
        Heads {
            writer: HeadWriter::new(alloc),
            alloc,
            before: Glance {
                status: 0,
                moment: 0,
                length: None,
            },
            last: None,
            text: ByteText::new(alloc),
        }
    }

    /// Whether this head with this media type is kept.
    fn has(&self, head: &ReplyHead, kind: Option<&[u8]>) -> bool
        ensures { result ≡ true → self.now.text ≡ head_of (of_kind head.now kind.entry) }
    {
        match &self.last {
            Some(last) => is_last(last, head, kind),
            None => false,
        }
    }

    /// Whether this head may be kept and the head before was like it, which is the one before from now on.
    fn comes_again(&mut self, head: &ReplyHead) -> bool {
        let before = self.before;
        self.before = Glance {
            status: head.status,
            moment: head.moment,
            length: head.length,
        };
        head.location.is_none()
            && before.status == head.status
            && before.moment == head.moment
            && is_same(before.length, head.length)
    }

    /// Writes a head with this media type, and keeps it.
    #[inline(never)]
    fn keep(&mut self, head: &ReplyHead, kind: Option<&[u8]>) -> Result<(), OutOfMemory>
        ensures { OnOk result (self.new.text ≡ head_of (of_kind head.now kind.entry)) }
    {
        let kept = match kind {
            Some(kind) => Some(ByteText::from_slice(self.alloc, kind)?),
            None => None,
        };
        self.last = None;
        self.text.clear();
        self.text.extend(self.writer.text_of_kind(head, kind)?)?;
        if head.location.is_none() {
            put(
                &mut self.last,
                Some(ReplyHead {
                    status: head.status,
                    moment: head.moment,
                    kind: kept,
                    length: head.length,
                    modified: head.modified,
                    location: None,
                    chunked: head.chunked,
                    keep: head.keep,
                }),
            );
        }
        Ok(())
    }

    /// The head of a response with this media type in place of the head's own.
    ///
    /// # Errors
    ///
    /// Want of memory alone.
    #[inline(always)]
    pub(crate) fn text_of_kind(
        &mut self,
        head: &ReplyHead,
        kind: Option<&[u8]>,
    ) -> Result<&[u8], OutOfMemory>
        ensures { IfOk result (λ text. text.now ≡ head_of (of_kind head.now kind.entry)) }
    {
        if self.has(head, kind) {
            return Ok(self.text.as_slice());
        }
        if !self.comes_again(head) {
            let text = self.writer.text_of_kind(head, kind)?;
            return Ok(text);
        }
        self.keep(head, kind)?;
        Ok(self.text.as_slice())
    }
}
