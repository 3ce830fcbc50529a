// The encodings of `echo`.
ghost use Rattle.std.specs.Prelude.{◌≡◌, ℕ, ◌+◌, ◌/◌, ◌%◌, ◌<◌, ◌≤◌, List, [], ◌∷◌, ◌++◌, OnOk, IfOk};
ghost use Rattle.std.specs.List.{flat_map};
ghost use Rattle.resp_head.specs.Values.{hex_digit, escape as escape_of};
ghost use Rattle.request_meaning.specs.Documents.{encoded, entity_byte, is_unreserved as is_plain, url_byte};

use byte_text::{ByteText, OutOfMemory};
use std::alloc::Global;

/// Writes a byte of HTML (the encoding `entity`).
fn append_entity(byte: u8, out: &mut ByteText) -> Result<(), OutOfMemory>
    ensures { OnOk result (out.new ≡ out.old ++ entity_byte byte) }
{
    match byte {
        b'<' => out.extend(b"&lt;"),
        b'>' => out.extend(b"&gt;"),
        b'&' => out.extend(b"&amp;"),
        b'"' => out.extend(b"&quot;"),
        _ => out.push(byte),
    }
}

fn is_unreserved(byte: u8) -> bool
    ensures { result ≡ is_plain byte }
{
    byte.is_ascii_alphanumeric() || byte == b'-' || byte == b'.' || byte == b'_' || byte == b'~'
}

#[tactic(auto, unfolding(resp_head::specs::Values::hex_digit))]
fn hex(n: u8) -> u8
    requires { n < 16 }
    ensures { result ≡ hex_digit n }
{
    b"0123456789ABCDEF"[n as usize]
}

#[tactic(auto, unfolding(resp_head::specs::Values::escape))]
fn escape(byte: u8) -> [u8; 3]
    ensures { result ≡ escape_of byte }
{
    [b'%', hex(byte / 16), hex(byte % 16)]
}

/// Writes a byte of an address (the encoding `url`; RFC 3986, sections 2.1 and 2.3).
fn append_url(byte: u8, out: &mut ByteText) -> Result<(), OutOfMemory>
    ensures { OnOk result (out.new ≡ out.old ++ url_byte byte) }
{
    if is_unreserved(byte) {
        out.push(byte)?;
        return Ok(());
    }
    out.extend(&escape(byte))?;
    Ok(())
}

fn entity_text(alloc: Global, text: &[u8]) -> Result<ByteText, OutOfMemory>
    ensures { IfOk result (λ out. out ≡ flat_map entity_byte text.now) }
{
    let mut out = ByteText::new(alloc);
    out.reserve(text.len())?;
    for byte in text {
        append_entity(*byte, &mut out)?;
    }
    Ok(out)
}

fn url_text(alloc: Global, text: &[u8]) -> Result<ByteText, OutOfMemory>
    ensures { IfOk result (λ out. out ≡ flat_map url_byte text.now) }
{
    let mut out = ByteText::new(alloc);
    out.reserve(text.len())?;
    for byte in text {
        append_url(*byte, &mut out)?;
    }
    Ok(out)
}

/// A text in an encoding, by its name: `entity`, `url` or `none`. None where there is no such encoding.
#[tactic(auto, unfolding(request_meaning::specs::Documents::encoded))]
pub fn encoded(alloc: Global, encoding: &[u8], text: &[u8]) -> Result<Option<ByteText>, OutOfMemory>
    ensures { IfOk result (λ out. out ≡ encoded encoding.now text.now) }
{
    if encoding == b"entity".as_slice() {
        let out = entity_text(alloc, text)?;
        return Ok(Some(out));
    }
    if encoding == b"url".as_slice() {
        let out = url_text(alloc, text)?;
        return Ok(Some(out));
    }
    if encoding == b"none".as_slice() {
        let out = ByteText::from_slice(alloc, text)?;
        return Ok(Some(out));
    }
    Ok(None)
}
