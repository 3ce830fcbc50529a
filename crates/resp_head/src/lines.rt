// The lines of a head, each a function that appends it.
ghost use Rattle.std.specs.Prelude.{◌≡◌, ℕ, ◌++◌, OnOk};
ghost use Rattle.http_moment.specs.Moment.{date_of};
ghost use Rattle.resp_head.specs.Head.{status_line, field_line, server_field, date_field, type_field, length_field, modified_field, location_field, chunked_field, connection_field, crlf};
ghost use Rattle.resp_head.specs.Values.{value_text, location_text};

use crate::phrases::phrase;
use crate::values::{put_location, put_value};
use byte_text::{ByteText, OutOfMemory};
use itoa::Buffer;

/// The end of a line: two bytes that are pushed cost less than a text of two.
#[tactic(auto, unfolding(crate::specs::Head::crlf))]
#[inline(always)]
fn put_crlf(out: &mut ByteText) -> Result<(), OutOfMemory>
    ensures { OnOk result (out.new ≡ out.old ++ crlf) }
{
    out.push(b'\r')?;
    out.push(b'\n')?;
    Ok(())
}

#[tactic(auto, unfolding(crate::specs::Head::status_line))]
pub fn put_status_line(status: u16, out: &mut ByteText) -> Result<(), OutOfMemory>
    ensures { OnOk result (out.new ≡ out.old ++ status_line status) }
{
    out.extend(b"HTTP/1.1 ")?;
    out.extend(Buffer::new().format(status).as_bytes())?;
    out.push(b' ')?;
    out.extend(phrase(status))?;
    put_crlf(out)?;
    Ok(())
}

/// Server and Date.
#[tactic(auto, unfolding(crate::specs::Head::field_line, crate::specs::Head::server_field, crate::specs::Head::date_field, crate::specs::Head::crlf))]
pub fn put_date(date: &[u8; 29], out: &mut ByteText) -> Result<(), OutOfMemory>
    ensures { OnOk result (out.new
        ≡ out.old ++ field_line server_field ++ field_line (date_field date.now)) }
{
    out.extend(b"Server: nginx\r\nDate: ")?;
    out.extend(date)?;
    put_crlf(out)?;
    Ok(())
}

#[tactic(auto, unfolding(crate::specs::Head::field_line, crate::specs::Head::type_field, crate::specs::Head::crlf))]
#[inline(always)]
pub fn put_type(kind: &[u8], out: &mut ByteText) -> Result<(), OutOfMemory>
    ensures { OnOk result (out.new ≡ out.old ++ field_line (type_field kind.now)) }
{
    out.extend(b"Content-Type: ")?;
    put_value(kind, out)?;
    put_crlf(out)?;
    Ok(())
}

#[tactic(auto, unfolding(crate::specs::Head::field_line, crate::specs::Head::length_field, crate::specs::Head::crlf))]
#[inline(always)]
pub fn put_length(length: u64, out: &mut ByteText) -> Result<(), OutOfMemory>
    ensures { OnOk result (out.new ≡ out.old ++ field_line (length_field length)) }
{
    out.extend(b"Content-Length: ")?;
    out.extend(Buffer::new().format(length).as_bytes())?;
    put_crlf(out)?;
    Ok(())
}

#[tactic(auto, unfolding(crate::specs::Head::field_line, crate::specs::Head::modified_field, crate::specs::Head::crlf))]
#[inline(always)]
pub fn put_modified(date: &[u8; 29], out: &mut ByteText) -> Result<(), OutOfMemory>
    ensures { (secs : ℕ) → date.now ≡ date_of secs
        → OnOk result (out.new ≡ out.old ++ field_line (modified_field secs)) }
{
    out.extend(b"Last-Modified: ")?;
    out.extend(date)?;
    put_crlf(out)?;
    Ok(())
}

#[tactic(auto, unfolding(crate::specs::Head::field_line, crate::specs::Head::location_field, crate::specs::Head::crlf))]
pub fn put_target(to: &[u8], out: &mut ByteText) -> Result<(), OutOfMemory>
    ensures { OnOk result (out.new ≡ out.old ++ field_line (location_field to.now)) }
{
    out.extend(b"Location: ")?;
    put_location(to, out)?;
    put_crlf(out)?;
    Ok(())
}

#[tactic(auto, unfolding(crate::specs::Head::field_line, crate::specs::Head::chunked_field, crate::specs::Head::crlf))]
pub fn put_chunked(out: &mut ByteText) -> Result<(), OutOfMemory>
    ensures { OnOk result (out.new ≡ out.old ++ field_line chunked_field) }
{
    out.extend(b"Transfer-Encoding: chunked\r\n")?;
    Ok(())
}

/// Connection, and the empty line that ends the head.
#[tactic(auto, unfolding(crate::specs::Head::field_line, crate::specs::Head::connection_field, crate::specs::Head::crlf))]
#[inline(always)]
pub fn put_end(keep: bool, out: &mut ByteText) -> Result<(), OutOfMemory>
    ensures { OnOk result (out.new ≡ out.old ++ field_line (connection_field keep) ++ crlf) }
{
    if keep {
        out.extend(b"Connection: keep-alive\r\n\r\n")?;
        Ok(())
    } else {
        out.extend(b"Connection: close\r\n\r\n")?;
        Ok(())
    }
}
