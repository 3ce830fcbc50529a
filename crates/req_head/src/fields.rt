// The fields of a head, as they were sent.

ghost use Rattle.std.specs.Prelude.{◌≡◌, ◌≤◌, [], length, map, IfOk, All, option_map};
ghost use Rattle.httparse.specs.Spans.{IsHeaderWithin, header_bytes};
ghost use Rattle.http_header.specs.Token.{lowercase};
ghost use Rattle.http_header.specs.HeaderMap.{get, get_all};
ghost use Rattle.req_head.specs.Fields.{with_fields, IsTaken};

use crate::values::FieldValues;
use byte_text::OutOfMemory;
use httparse::spans::HeaderSpan;
use std::alloc::{AllocError, Global};
use std::marker::Model;

/// The fields of a head, as they were sent: its bytes, and where each field is among them. A contract sees them as the map of
/// these fields: each name in lower case, with its values in their order, without the white space around them.
#[derive(Drop)]
pub struct HeadFields {
    text: Vec<u8>,
    spans: Vec<HeaderSpan>,
}

impl Model for HeadFields {
    ghost use Rattle.std.specs.Prelude.{ℕ, List, [], map};
    ghost use Rattle.std.specs.Coded.{coded_list, coded×, coded_ℕ};
    ghost use Rattle.httparse.specs.Spans.{header_bytes};
    ghost use Rattle.http_header.specs.FieldValue.{FieldValue, field_value_code};
    ghost use Rattle.http_header.specs.HeaderMap.{Entries};
    ghost use Rattle.req_head.specs.Fields.{with_fields, AreShown};

    ghost Value = { Entries FieldValue };

    ghost coded = { coded_list (coded× (coded_list coded_ℕ) (coded_list field_value_code)) };

    ghost view = { λ f. with_fields [] (map (header_bytes f.text.items) f.spans.items) };

    ghost invariant = { λ f. AreShown f.text.items f.spans.items };
}

/// These bytes, in the room of others.
fn text_in(room: Vec<u8>, bytes: &[u8]) -> Result<Vec<u8>, AllocError>
    ensures { IfOk result (λ text. text.items ≡ bytes.now) }
{
    let mut text = room;
    text.clear();
    text.extend_from_slice(bytes)?;
    Ok(text)
}

/// These spans, in the room of others.
fn spans_in(room: Vec<HeaderSpan>, spans: &[HeaderSpan]) -> Result<Vec<HeaderSpan>, AllocError>
    ensures { IfOk result (λ copy. copy.items ≡ spans.now) }
{
    let mut copy = room;
    copy.clear();
    copy.extend_from_slice(spans)?;
    Ok(copy)
}

fn copy_spans(alloc: Global, spans: &[HeaderSpan]) -> Result<Vec<HeaderSpan>, AllocError>
    ensures { IfOk result (λ copy. copy.items ≡ spans.now) }
{
    Vec::from_slice(alloc, spans)
}

impl HeadFields {
    ghost use Rattle.std.specs.Prelude.{◌≡◌, ◌≤◌, [], length, map, IfOk, All, option_map};
    ghost use Rattle.httparse.specs.Spans.{IsHeaderWithin, header_bytes};
    ghost use Rattle.http_header.specs.Token.{lowercase};
    ghost use Rattle.http_header.specs.HeaderMap.{get, get_all};
    ghost use Rattle.req_head.specs.Fields.{with_fields, IsTaken};

    /// No fields. It takes no memory.
    #[tactic(auto, unfolding(crate::specs::Fields::with_fields))]
    pub fn new(alloc: Global) -> Self
        ensures { result ≡ [] }
    {
        HeadFields {
            text: Vec::new(alloc),
            spans: Vec::new(alloc),
        }
    }

    /// The fields that the spans show, in the room of others.
    pub(crate) fn of_spans(
        room: HeadFields,
        text: &[u8],
        spans: &[HeaderSpan],
    ) -> Result<Self, OutOfMemory>
        requires few { length spans.now ≤ 64 }
        requires within { All (IsHeaderWithin (length text.now)) spans.now }
        requires taken { All (λ s. IsTaken (header_bytes text.now s)) spans.now }
        ensures { IfOk result (λ m. m ≡ with_fields [] (map (header_bytes text.now) spans.now)) }
    {
        let text = text_in(room.text, text)?;
        let spans = spans_in(room.spans, spans)?;
        Ok(HeadFields { text, spans })
    }

    /// The same fields once more.
    ///
    /// # Errors
    ///
    /// Want of memory alone.
    pub fn copy(&self, alloc: Global) -> Result<Self, OutOfMemory>
        ensures { IfOk result (λ copy. copy ≡ self.now) }
    {
        let text = Vec::from_slice(alloc, self.text.as_slice())?;
        let spans = copy_spans(alloc, self.spans.as_slice())?;
        Ok(HeadFields { text, spans })
    }

    /// The values of the fields that have the name, in any case, in their order.
    pub fn values<'f, 'n>(&'f self, name: &'n [u8]) -> FieldValues<'f, 'n>
        ensures { result ≡ get_all self.now (lowercase name.now) }
    {
        FieldValues::new(self.text.as_slice(), self.spans.as_slice(), name)
    }

    /// The value of the first field that has the name, in any case.
    pub fn first(&self, name: &[u8]) -> Option<&[u8]>
        ensures { option_map (λ b. b.now) result
            ≡ option_map (λ v. v.bytes) (get self.now (lowercase name.now)) }
    {
        self.values(name).next()
    }
}
