// Bytes in print.
ghost use Rattle.std.specs.Prelude.{◌≡◌, ◌<◌, ◌≤◌, ◌++◌, false, length, take, drop, slice_index, OnOk};
ghost use Rattle.report_text.specs.Escapes.{is_plain as has_plain_form, escaped};

use byte_text::{ByteText, OutOfMemory};
use percent_encoding::percent_encode_byte;

/// Whether the byte is written as it is: a printable one of ASCII, other than `%`.
#[inline]
fn is_plain(byte: u8) -> bool
    ensures { result ≡ has_plain_form byte }
{
    b' ' <= byte && byte <= b'~' && byte != b'%'
}

/// How many bytes at the front are written as they are.
fn plain_len(bytes: &[u8]) -> usize
    ensures within { result ≤ length bytes.now }
    ensures plain { escaped bytes.now ≡ take result bytes.now ++ escaped (drop result bytes.now) }
    ensures next { result < length bytes.now
        → has_plain_form (slice_index bytes.now result) ≡ false }
{
    for (i, byte) in bytes.iter().enumerate() {
        if !is_plain(*byte) {
            return i;
        }
    }
    bytes.len()
}

/// The length of what [`put_escaped`] appends, or the greatest number where it is none.
pub fn escaped_len(bytes: &[u8]) -> usize {
    let escapes = bytes.iter().filter(|byte| !is_plain(**byte)).count();
    escapes.saturating_mul(2).saturating_add(bytes.len())
}

/// Appends bytes, each that isn't plain as `%` and its two upper-case hexadecimal digits (RFC 3986, 2.1).
pub fn put_escaped(bytes: &[u8], out: &mut ByteText) -> Result<(), OutOfMemory>
    ensures { OnOk result (out.new ≡ out.old ++ escaped bytes.now) }
{
    let mut rest = bytes;
    'runs: loop {
        let (plain, behind) = rest.split_at(plain_len(rest));
        out.extend(plain)?;
        match behind {
            [] => return Ok(()),
            [byte, others @ ..] => {
                out.extend(percent_encode_byte(*byte).as_bytes())?;
                rest = others;
            }
        }
    }
}
