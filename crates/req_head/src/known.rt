// What the tests and the answers look at among the fields.
ghost use Rattle.std.specs.Prelude.{◌≡◌, ◌||◌, ◌++◌, List, [], ◌∷◌, length, map, All};
ghost use Rattle.httparse.specs.Spans.{IsHeaderWithin, header_bytes};
ghost use Rattle.http_header.specs.FieldValue.{FieldValue, plain_value};
ghost use Rattle.http_header.specs.HeaderMap.{Entries};
ghost use Rattle.req_head.specs.Fields.{with_field, with_fields};
ghost use Rattle.req_head.specs.Options.{same_word, lists_option};
ghost use Rattle.req_head.specs.Known.{AreValues, IsKnown, kind_of};

use crate::options::{is_same_word, lists_option};
use httparse::spans::HeaderSpan;

/// The values of a field, by the first of them.
#[derive(Clone, Copy)]
pub(crate) enum Values<'m> {
    Nothing,
    One(&'m [u8]),
    Many(&'m [u8]),
}

/// Which of the fields that are looked at a field is.
#[derive(Clone, Copy)]
pub(crate) enum Kind {
    Host,
    Connection,
    Length,
    Coding,
    Expect,
    Other,
}

/// What is known of a head's fields.
#[derive(Clone, Copy)]
pub(crate) struct Known<'m> {
    pub host: Values<'m>,
    pub coding: Values<'m>,
    pub length: Values<'m>,
    /// Connection lists `close`.
    pub closes: bool,
    /// Connection lists `keep-alive`.
    pub keeps_alive: bool,
    /// Expect is `100-continue`.
    pub continues: bool,
}

#[tactic(auto, unfolding(crate::specs::Known::kind_of))]
fn kind_of(name: &[u8]) -> Kind
    ensures { result ≡ kind_of name.now }
{
    if is_same_word(name, b"host") {
        Kind::Host
    } else if is_same_word(name, b"connection") {
        Kind::Connection
    } else if is_same_word(name, b"content-length") {
        Kind::Length
    } else if is_same_word(name, b"transfer-encoding") {
        Kind::Coding
    } else if is_same_word(name, b"expect") {
        Kind::Expect
    } else {
        Kind::Other
    }
}

/// The values with one more.
fn with_value<'m>(values: Values<'m>, value: &'m [u8]) -> Values<'m>
    ensures { (old : List FieldValue) → AreValues old values.entry
        → AreValues (old ++ plain_value value.now ∷ []) result }
{
    match values {
        Values::Nothing => Values::One(value),
        Values::One(first) => Values::Many(first),
        Values::Many(first) => Values::Many(first),
    }
}

/// Whether a word was listed before, or is in this value.
fn lists_so_far(before: bool, value: &[u8], word: &[u8]) -> bool
    ensures { result ≡ (before || lists_option word.now value.now) }
{
    before || lists_option(value, word)
}

/// Whether a value was this word before, or this one is.
fn same_so_far(before: bool, value: &[u8], word: &[u8]) -> bool
    ensures { result ≡ (before || same_word word.now value.now) }
{
    before || is_same_word(value, word)
}

/// What is known with one more field.
fn add_field<'m>(known: Known<'m>, name: &[u8], value: &'m [u8]) -> Known<'m>
    ensures { (m : Entries FieldValue) → IsKnown m known.entry
        → IsKnown (with_field m (name.now, value.now)) result }
{
    match kind_of(name) {
        Kind::Host => Known {
            host: with_value(known.host, value),
            ..known
        },
        Kind::Connection => Known {
            closes: lists_so_far(known.closes, value, b"close"),
            keeps_alive: lists_so_far(known.keeps_alive, value, b"keep-alive"),
            ..known
        },
        Kind::Length => Known {
            length: with_value(known.length, value),
            ..known
        },
        Kind::Coding => Known {
            coding: with_value(known.coding, value),
            ..known
        },
        Kind::Expect => Known {
            continues: same_so_far(known.continues, value, b"100-continue"),
            ..known
        },
        Kind::Other => known,
    }
}

/// What is known of the fields that the spans show.
pub(crate) fn known_of<'m>(text: &'m [u8], spans: &[HeaderSpan]) -> Known<'m>
    requires { All (IsHeaderWithin (length text.now)) spans.now }
    ensures { IsKnown (with_fields [] (map (header_bytes text.now) spans.now)) result }
{
    let mut known = Known {
        host: Values::Nothing,
        coding: Values::Nothing,
        length: Values::Nothing,
        closes: false,
        keeps_alive: false,
        continues: false,
    };
    for span in spans {
        known = add_field(known, span.name.of(text), span.value.of(text));
    }
    known
}
