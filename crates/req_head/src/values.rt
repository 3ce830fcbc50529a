// The values of the fields that have a name.
ghost use Rattle.std.specs.Prelude.{◌≡◌, ℕ, ◌<◌, ◌≤◌, List, [], ◌∷◌, length, map, bytes_eq, IfSome, MatchOption, All};
ghost use Rattle.std.specs.Iterator.{YieldsFirstBy, item_count};
ghost use Rattle.httparse.specs.Spans.{IsHeaderWithin, IsWithin, header_bytes, span_bytes};
ghost use Rattle.http_header.specs.Token.{lowercase};
ghost use Rattle.http_header.specs.FieldValue.{plain_value};
ghost use Rattle.req_head.specs.Fields.{values_named};

use httparse::spans::{HeaderSpan, Span};
use std::marker::Model;

/// The values of the fields that have a name, in any case, in their order. Contracts see those that are left.
#[derive(Drop)]
pub struct FieldValues<'f, 'n> {
    text: &'f [u8],
    spans: &'f [HeaderSpan],
    name: &'n [u8],
}

impl<'f, 'n> Model for FieldValues<'f, 'n> {
    ghost use Rattle.std.specs.Prelude.{List, length, map, All};
    ghost use Rattle.std.specs.Coded.{coded_list};
    ghost use Rattle.httparse.specs.Spans.{IsHeaderWithin, header_bytes};
    ghost use Rattle.http_header.specs.Token.{lowercase};
    ghost use Rattle.http_header.specs.FieldValue.{FieldValue, field_value_code};
    ghost use Rattle.req_head.specs.Fields.{values_named};

    ghost Value = { List FieldValue };

    ghost coded = { coded_list field_value_code };

    ghost view = { λ v. values_named (lowercase v.name.now)
        (map (header_bytes v.text.now) v.spans.now) };

    ghost invariant = { λ v. All (IsHeaderWithin (length v.text.now)) v.spans.now };
}

/// Whether a span shows the name, in any case.
fn is_named(text: &[u8], span: Span, name: &[u8]) -> bool
    requires { IsWithin (length text.now) span }
    ensures { result ≡ bytes_eq (lowercase (span_bytes text.now span)) (lowercase name.now) }
{
    span.of(text).eq_ignore_ascii_case(name)
}

/// The value of the first field that has the name, and the fields after it.
#[tactic(auto, unfolding(crate::specs::Fields::values_named))]
fn next_named<'f>(
    text: &'f [u8],
    spans: &'f [HeaderSpan],
    name: &[u8],
) -> Option<(&'f [u8], &'f [HeaderSpan])>
    requires { All (IsHeaderWithin (length text.now)) spans.now }
    ensures value { MatchOption result
        (values_named (lowercase name.now) (map (header_bytes text.now) spans.now) ≡ [])
        (λ found. values_named (lowercase name.now) (map (header_bytes text.now) spans.now)
        ≡ plain_value found.0.now
        ∷ values_named (lowercase name.now) (map (header_bytes text.now) found.1.now)) }
    ensures within { IfSome result (λ found. All (IsHeaderWithin (length text.now)) found.1.now) }
    ensures shorter { IfSome result (λ found. length found.1.now < length spans.now) }
{
    let mut rest = spans;
    while let [span, behind @ ..] = rest {
        if is_named(text, span.name, name) {
            return Some((span.value.of(text), behind));
        }
        rest = behind;
    }
    None
}

impl<'f, 'n> FieldValues<'f, 'n> {
    /// The values of those of these fields that have the name.
    pub(crate) fn new(
        text: &'f [u8],
        spans: &'f [HeaderSpan],
        name: &'n [u8],
    ) -> FieldValues<'f, 'n>
        requires { All (IsHeaderWithin (length text.now)) spans.now }
        ensures { result ≡ values_named (lowercase name.now)
            (map (header_bytes text.now) spans.now) }
    {
        FieldValues { text, spans, name }
    }
}

impl<'f, 'n> Iterator for FieldValues<'f, 'n> {
    type Item = &'f [u8];

    ghost next_gives = { YieldsFirstBy (λ value. plain_value value.now) (λ left. left) };

    ghost remaining = { item_count (λ left. left) };

    fn next(&mut self) -> Option<&'f [u8]> {
        let (value, behind) = next_named(self.text, self.spans, self.name)?;
        self.spans = behind;
        Some(value)
    }
}
