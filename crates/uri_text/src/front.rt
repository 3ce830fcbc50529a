// The first byte of a text with escapes.
ghost use Rattle.std.specs.Prelude.{◌≡◌, ◌&&◌, ◌≤◌, length, if◌then◌else◌};
ghost use Rattle.std.specs.Char.{is_digit};
ghost use Rattle.std.specs.List.{prefix_len};
ghost use Rattle.uri_text.specs.Target.{escape_value};
ghost use Rattle.uri_text.specs.Steps.{IsFront, is_plain};

use crate::UriFault;

/// What a text with escapes begins with.
pub enum Front<'a> {
    /// Nothing: the text is empty.
    End,
    /// This byte, as it is or escaped, and then the rest.
    Byte(u8, &'a [u8]),
    /// A faulty escape.
    Fault(UriFault),
}

/// Reads the first byte, and its escape where it is escaped.
#[inline]
pub fn front_of(text: &[u8]) -> Front<'_>
    ensures { IsFront text.now result }
{
    let [first, rest @ ..] = text else {
        return Front::End;
    };
    if *first != b'%' {
        return Front::Byte(*first, rest);
    }
    let [high, low, behind @ ..] = rest else {
        return Front::Fault(UriFault::BadEscape);
    };
    match byte_of(*high, *low) {
        None => Front::Fault(UriFault::BadEscape),
        Some(0) => Front::Fault(UriFault::Zero),
        Some(byte) => Front::Byte(byte, behind),
    }
}

/// How many bytes at the front are as they are and end no segment.
pub fn plain_len(text: &[u8]) -> usize
    ensures within { result ≤ length text.now }
    ensures value { result ≡ prefix_len is_plain text.now }
{
    for (i, &byte) in text.iter().enumerate() {
        if byte == b'/' || byte == b'%' {
            return i;
        }
    }
    text.len()
}

/// The byte that two hexadecimal digits spell.
fn byte_of(high: u8, low: u8) -> Option<u8>
    ensures { result ≡ (if is_digit high 16 && is_digit low 16
        then Some (escape_value high low) else None) }
{
    let high = char::from(high).to_digit(16)?;
    let low = char::from(low).to_digit(16)?;
    Some((high * 16 + low) as u8)
}
