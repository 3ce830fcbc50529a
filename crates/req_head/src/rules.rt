// The tests on a head, and what its fields say.
ghost use Rattle.std.specs.Prelude.{◌≡◌, ℕ, ◌≤◌, ◌&&◌, ◌||◌, ◌==◌, not, List, true, false, codes, length, IfOk};
ghost use Rattle.std.specs.List.{list_all};
ghost use Rattle.std.specs.Str.Parse.{digits_value};
ghost use Rattle.http_header.specs.FieldValue.{FieldValue};
ghost use Rattle.http_header.specs.HeaderMap.{Entries, get_all};
ghost use Rattle.req_head.specs.Rules.{is_digit, is_length, host_is_bad, coding_is_other, length_is_bad, is_there, first_fault};
ghost use Rattle.req_head.specs.Heads.{method_of, version_of, sized, body_by_length, body_of, keeps, fault_with};
ghost use Rattle.req_head.specs.HostBytes.{IsLookedAt};
ghost use Rattle.req_head.specs.Known.{AreValues, IsKnown, first_of};

use crate::host_bytes::HostBytes;
use crate::known::{Known, Values};
use crate::options::is_same_word;
use byte_text::{ByteText, OutOfMemory};
use http_types::{BodyKind, Method, Version};
use std::alloc::Global;
use uri_text::is_target;

fn are_digits(bytes: &[u8]) -> bool
    ensures { result ≡ list_all is_digit bytes.now }
{
    bytes.iter().all(|b| *b >= b'0' && *b <= b'9')
}

fn is_length(bytes: &[u8]) -> bool
    ensures { result ≡ is_length bytes.now }
{
    are_digits(bytes) && !bytes.is_empty() && bytes.len() <= 19
}

fn is_bad_host(host: Values<'_>, bytes: HostBytes, minor: u8) -> bool
    requires { IsLookedAt (first_of host) bytes }
    ensures { (values : List FieldValue) → AreValues values host.entry
        → result ≡ host_is_bad minor values }
{
    match host {
        Values::Nothing => minor == 1,
        Values::One(_) => bytes.bad,
        Values::Many(_) => true,
    }
}

fn is_bad_length(length: Values<'_>) -> bool
    ensures { (values : List FieldValue) → AreValues values length.entry
        → result ≡ length_is_bad values }
{
    match length {
        Values::Nothing => false,
        Values::One(bytes) => !is_length(bytes),
        Values::Many(_) => true,
    }
}

fn is_other_coding(coding: Values<'_>) -> bool
    ensures { (values : List FieldValue) → AreValues values coding.entry
        → result ≡ coding_is_other values }
{
    match coding {
        Values::Nothing => false,
        Values::One(bytes) => !is_same_word(bytes, b"chunked"),
        Values::Many(_) => true,
    }
}

fn are_there(found: Values<'_>) -> bool
    ensures { (values : List FieldValue) → AreValues values found.entry → result ≡ is_there values }
{
    match found {
        Values::Nothing => false,
        Values::One(_) => true,
        Values::Many(_) => true,
    }
}

/// Whether there is a Transfer-Encoding where there may be none: in HTTP/1.0, or beside a Content-Length.
fn is_mixed(minor: u8, coding: Values<'_>, length: Values<'_>) -> bool
    ensures { (codings lengths : List FieldValue) → AreValues codings coding.entry
        → AreValues lengths length.entry
        → result ≡ (is_there codings && (minor == 0 || is_there lengths)) }
{
    are_there(coding) && (minor == 0 || are_there(length))
}

/// The code of the first of the tests that fails.
fn first_fault(host: bool, mixed: bool, coding: bool, length: bool, target: bool) -> Option<u16>
    ensures { result ≡ first_fault host mixed coding length target }
{
    if host {
        Some(400)
    } else if mixed {
        Some(400)
    } else if coding {
        Some(501)
    } else if length {
        Some(400)
    } else if target {
        Some(400)
    } else {
        None
    }
}

/// The code of the first test that a head with these parts fails.
pub(crate) fn find_fault(
    minor: u8,
    target: &[u8],
    known: Known<'_>,
    bytes: HostBytes,
) -> Option<u16>
    requires { IsLookedAt (first_of known.host) bytes }
    ensures { (fields : Entries FieldValue) → IsKnown fields known.entry
        → result ≡ fault_with minor target.now fields }
{
    let host = is_bad_host(known.host, bytes, minor);
    let mixed = is_mixed(minor, known.coding, known.length);
    let coding = is_other_coding(known.coding);
    let length = is_bad_length(known.length);
    first_fault(host, mixed, coding, length, !is_target(target, true))
}

#[tactic(auto, unfolding(crate::specs::Heads::method_of))]
#[inline(always)]
pub(crate) fn method_of(alloc: Global, bytes: &[u8]) -> Result<Method, OutOfMemory>
    ensures { IfOk result (λ m. m ≡ method_of bytes.now) }
{
    if bytes == b"GET".as_slice() {
        Ok(Method::Get)
    } else if bytes == b"HEAD".as_slice() {
        Ok(Method::Head)
    } else if bytes == b"POST".as_slice() {
        Ok(Method::Post)
    } else {
        Ok(Method::Other(ByteText::from_slice(alloc, bytes)?))
    }
}

pub(crate) fn version_of(minor: u8) -> Version
    ensures { result ≡ version_of minor }
{
    if minor == 1 {
        Version::V11
    } else {
        Version::V10
    }
}

/// The number that digits write.
fn number_of(digits: &[u8]) -> u64
    requires digits { list_all is_digit digits.now ≡ true }
    requires few { length digits.now ≤ 19 }
    ensures { result ≡ digits_value 10 digits.now }
{
    let mut number = 0;
    for digit in digits {
        number = number * 10 + u64::from(*digit - b'0');
    }
    number
}

/// The body of `length` bytes.
fn sized(length: u64) -> BodyKind
    ensures { result ≡ sized length }
{
    if length == 0 {
        BodyKind::Empty
    } else {
        BodyKind::Length(length)
    }
}

/// How the body is framed that the values of Content-Length give.
fn body_by_length(length: Values<'_>) -> BodyKind
    requires { (values : List FieldValue) × AreValues values length
        × (length_is_bad values ≡ false) }
    ensures { (values : List FieldValue) → AreValues values length.entry
        → result ≡ body_by_length values }
{
    match length {
        Values::Nothing => BodyKind::Empty,
        Values::One(digits) => sized(number_of(digits)),
        Values::Many(_) => unreachable!(),
    }
}

/// How the body after the head is framed.
#[inline(always)]
pub(crate) fn body_of(known: Known<'_>) -> BodyKind
    requires { (fields : Entries FieldValue) × IsKnown fields known
        × (length_is_bad (get_all fields (codes "content-length")) ≡ false) }
    ensures { (fields : Entries FieldValue) → IsKnown fields known.entry
        → result ≡ body_of (get_all fields (codes "transfer-encoding"))
        (get_all fields (codes "content-length")) }
{
    let by_length = body_by_length(known.length);
    if are_there(known.coding) {
        BodyKind::Chunked
    } else {
        by_length
    }
}

/// Whether a connection may persist.
fn persists(minor: u8, continues: bool, closes: bool, keeps_alive: bool) -> bool
    ensures { result ≡ (not continues && (not closes && (minor == 1 || keeps_alive))) }
{
    !continues && !closes && (minor == 1 || keeps_alive)
}

/// Whether the head alone lets the connection persist (RFC 9112, section 9.3).
pub(crate) fn keeps(minor: u8, known: Known<'_>) -> bool
    ensures { (fields : Entries FieldValue) → IsKnown fields known.entry
        → result ≡ keeps minor (get_all fields (codes "connection"))
        (get_all fields (codes "expect")) }
{
    persists(minor, known.continues, known.closes, known.keeps_alive)
}
