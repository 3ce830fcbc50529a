// The host that a request is for.
ghost use Rattle.std.specs.Prelude.{◌≡◌, ℕ, ◌≤◌, List, length, take, IfOk};
ghost use Rattle.http_header.specs.Token.{lowercase};
ghost use Rattle.http_header.specs.FieldValue.{FieldValue};
ghost use Rattle.req_head.specs.Host.{without_port, host_of};
ghost use Rattle.req_head.specs.HostBytes.{IsLookedAt};
ghost use Rattle.req_head.specs.Known.{AreValues, first_of};

use crate::host_bytes::{HostBytes, host_field};
use crate::known::Values;
use crate::room::SpareTexts;
use byte_text::{ByteText, OutOfMemory};
use uri_text::absolute_form;

/// Where the host ends: at its last `:` if no `]` comes after it.
fn name_end(host: &[u8]) -> usize
    ensures within { result ≤ length host.now }
    ensures value { take result host.now ≡ without_port host.now }
{
    let mut at = host.len();
    while at > 0 {
        at -= 1;
        if host[at] == b':' {
            return at;
        }
        if host[at] == b']' {
            return host.len();
        }
    }
    host.len()
}

/// The bytes in lower case.
fn lower(texts: &mut SpareTexts, bytes: &[u8]) -> Result<ByteText, OutOfMemory>
    ensures { IfOk result (λ t. t ≡ lowercase bytes.now) }
{
    let mut copy = texts.host(bytes)?.into_vec();
    copy.as_mut_slice().make_ascii_lowercase();
    Ok(ByteText::from_vec(copy))
}

/// A host in lower case, without the port.
fn lower_name(texts: &mut SpareTexts, host: &[u8]) -> Result<ByteText, OutOfMemory>
    ensures { IfOk result (λ t. t ≡ lowercase (without_port host.now)) }
{
    lower(texts, &host[..name_end(host)])
}

/// The same, where it is known what the bytes are.
#[inline(always)]
fn field_name(
    texts: &mut SpareTexts,
    host: &[u8],
    bytes: HostBytes,
) -> Result<ByteText, OutOfMemory>
    requires { IsLookedAt host.now bytes }
    ensures { IfOk result (λ t. t ≡ lowercase (without_port host.now)) }
{
    if bytes.plain {
        texts.host(host)
    } else {
        lower_name(texts, host)
    }
}

/// The host in lower case, without the port.
pub(crate) fn host_of(
    texts: &mut SpareTexts,
    target: &[u8],
    host: Values<'_>,
    bytes: HostBytes,
) -> Result<ByteText, OutOfMemory>
    requires { IsLookedAt (first_of host) bytes }
    ensures { IfOk result (λ t. (values : List FieldValue) → AreValues values host.entry
        → t ≡ host_of target.now values) }
{
    match absolute_form(target) {
        Some(form) => lower_name(texts, form.host),
        None => field_name(texts, host_field(host), bytes),
    }
}
