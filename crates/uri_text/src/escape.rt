// Paths with escapes.
ghost use Rattle.std.specs.Prelude.{◌≡◌, ◌++◌, length, take, OnOk, OnErr};
ghost use Rattle.uri_text.specs.Escape.{needs_escape, escape_of};

use byte_text::{ByteText, OutOfMemory};
use percent_encoding::percent_encode_byte;

#[inline]
fn must_be_escaped(byte: u8) -> bool
    ensures { result ≡ needs_escape byte }
{
    byte <= b' ' || byte >= 0x7F || matches!(byte, b'"' | b'#' | b'%' | b'<' | b'>' | b'?')
}

fn append_escapes(path: &[u8], out: &mut ByteText) -> Result<(), OutOfMemory>
    ensures ok { OnOk result (out.new ≡ out.old ++ escape_of path.now) }
    ensures kept { take (length out.old) out.new ≡ out.old }
{
    let escapes = path.iter().filter(|byte| must_be_escaped(**byte)).count();
    out.reserve(path.len().saturating_add(escapes.saturating_mul(2)))?;
    for &byte in path {
        if must_be_escaped(byte) {
            out.extend(percent_encode_byte(byte).as_bytes())?;
        } else {
            out.push(byte)?;
        }
    }
    Ok(())
}

/// Appends a path, with `%` and two upper-case hexadecimal digits for each byte up to a space or from DEL on, and for
/// each of `"` `#` `%` `<` `>` `?` (RFC 3986, section 2.1).
///
/// # Errors
///
/// Want of memory alone, which leaves `out` as it was.
pub fn escaped(path: &[u8], out: &mut ByteText) -> Result<(), OutOfMemory>
    ensures ok { OnOk result (out.new ≡ out.old ++ escape_of path.now) }
    ensures err { OnErr result (out.new ≡ out.old) }
{
    let len = out.len();
    let outcome = append_escapes(path, out);
    if outcome.is_err() {
        out.truncate(len);
    }
    outcome
}
