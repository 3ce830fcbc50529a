// Texts of any bytes as the values of fields.
ghost use Rattle.std.specs.Prelude.{◌≡◌, ◌/◌, ◌%◌, ◌<◌, [], ◌∷◌, ◌++◌, OnOk};
ghost use Rattle.std.specs.List.{flat_map, list_all};
ghost use Rattle.httparse.specs.Grammar.{is_value_byte as has_value_form};
ghost use Rattle.resp_head.specs.Values.{value_byte, value_text, is_printable as has_printable_form, is_visible as has_visible_form, escape as escape_of, hex_digit, location_byte, location_text};

use byte_text::{ByteText, OutOfMemory};

/// Whether a field's value may have the byte.
fn is_value_byte(byte: u8) -> bool
    ensures { result ≡ has_value_form byte }
{
    byte == b'\t' || (b' ' <= byte && byte != 0x7f)
}

/// Whether the byte is a space or a visible one of ASCII.
fn is_printable(byte: u8) -> bool
    ensures { result ≡ has_printable_form byte }
{
    b' ' <= byte && byte < 0x7f
}

/// Whether the byte is a visible one of ASCII.
fn is_visible(byte: u8) -> bool
    ensures { result ≡ has_visible_form byte }
{
    b' ' < byte && byte < 0x7f
}

fn are_printable(bytes: &[u8]) -> bool
    ensures { result ≡ list_all has_printable_form bytes.now }
{
    bytes.iter().all(|byte| is_printable(*byte))
}

fn are_visible(bytes: &[u8]) -> bool
    ensures { result ≡ list_all has_visible_form bytes.now }
{
    bytes.iter().all(|byte| is_visible(*byte))
}

#[tactic(auto, unfolding(crate::specs::Values::hex_digit))]
fn hex(n: u8) -> u8
    requires { n < 16 }
    ensures { result ≡ hex_digit n }
{
    b"0123456789ABCDEF"[n as usize]
}

#[tactic(auto, unfolding(crate::specs::Values::escape))]
fn escape(byte: u8) -> [u8; 3]
    ensures { result ≡ escape_of byte }
{
    [b'%', hex(byte / 16), hex(byte % 16)]
}

/// Appends one byte of a value.
#[tactic(auto, unfolding(crate::specs::Values::value_byte))]
fn put_value_byte(byte: u8, out: &mut ByteText) -> Result<(), OutOfMemory>
    ensures { OnOk result (out.new ≡ out.old ++ value_byte byte ∷ []) }
{
    if is_value_byte(byte) {
        out.push(byte)?;
        Ok(())
    } else {
        out.push(b' ')?;
        Ok(())
    }
}

/// Appends one byte of a Location.
#[tactic(auto, unfolding(crate::specs::Values::location_byte))]
fn put_location_byte(byte: u8, out: &mut ByteText) -> Result<(), OutOfMemory>
    ensures { OnOk result (out.new ≡ out.old ++ location_byte byte) }
{
    if is_visible(byte) {
        out.push(byte)?;
        Ok(())
    } else {
        out.extend(&escape(byte))?;
        Ok(())
    }
}

/// Appends a value, a space in place of each byte that a value may not have.
pub fn put_value(bytes: &[u8], out: &mut ByteText) -> Result<(), OutOfMemory>
    ensures { OnOk result (out.new ≡ out.old ++ value_text bytes.now) }
{
    // Most values are printable, and that is a test of one range a byte.
    if are_printable(bytes) {
        out.extend(bytes)?;
        return Ok(());
    }
    for byte in bytes {
        put_value_byte(*byte, out)?;
    }
    Ok(())
}

/// Appends the value of a Location, with bytes up to the space and from 0x7F on escaped.
pub fn put_location(bytes: &[u8], out: &mut ByteText) -> Result<(), OutOfMemory>
    ensures { OnOk result (out.new ≡ out.old ++ location_text bytes.now) }
{
    if are_visible(bytes) {
        out.extend(bytes)?;
        return Ok(());
    }
    for byte in bytes {
        put_location_byte(*byte, out)?;
    }
    Ok(())
}
