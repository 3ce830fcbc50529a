// What the words of paths and bytes spell.
ghost use Rattle.std.specs.Prelude.{◌≡◌, ℕ, ◌<◌, ◌+◌, ◌*◌, ◌&&◌, false, true, length, MatchOption, IfSome};
ghost use Rattle.std.specs.Char.{digit_value};
ghost use Rattle.std.specs.Option.{SomeIff};
ghost use Rattle.replay_words.specs.Faults.{LineGives};
ghost use Rattle.replay_words.specs.Escapes.{is_hex, with_byte, unescaped, behind_percent, onto, measured, begins_with_slash, path_word};

use crate::FaultKind;
use crate::faults::LineError;
use byte_text::ByteText;
use std::alloc::Global;
use text_words::{bytes_from, bytes_to, length_before};

/// The value of a hexadecimal digit.
fn hex_digit(byte: u8) -> Option<u8>
    ensures { SomeIff result (digit_value byte < 16) (digit_value byte) }
{
    match byte {
        b'0'..=b'9' => Some(byte - b'0'),
        b'A'..=b'F' => Some(byte - b'A' + 10),
        b'a'..=b'f' => Some(byte - b'a' + 10),
        _ => None,
    }
}

/// The byte of two hexadecimal digits.
fn hex_byte(high: u8, low: u8) -> Option<u8>
    ensures { MatchOption result ((is_hex high && is_hex low) ≡ false)
        (λ b. ((is_hex high && is_hex low) ≡ true)
        × (b ≡ 16 * digit_value high + digit_value low)) }
{
    let high = hex_digit(high)?;
    let low = hex_digit(low)?;
    Some(16 * high + low)
}

/// The byte that the digits after a `%` spell, and what comes after them.
fn escaped_byte(text: &[u8]) -> Option<(u8, &[u8])>
    ensures value { MatchOption result (behind_percent text.now ≡ Err FaultKind.Escape)
        (λ x. behind_percent text.now ≡ with_byte x.0 (unescaped x.1.now)) }
    ensures shorter { IfSome result (λ x. length x.1.now < length text.now) }
{
    if text.len() < 2 {
        return None;
    }
    match hex_byte(text[0], text[1]) {
        None => None,
        Some(byte) => Some((byte, bytes_from(text, 2))),
    }
}

/// Appends the bytes that a word spells to these.
pub fn unescape_onto(out: &mut Vec<u8>, word: &[u8]) -> Result<(), LineError>
    ensures { LineGives (λ _. out.new.items) result (onto out.old.items (unescaped word.now)) }
{
    let mut rest = word;
    'escapes: loop {
        let at = length_before(rest, b'%');
        out.extend_from_slice(bytes_to(rest, at))?;
        if at == rest.len() {
            return Ok(());
        }
        let Some((byte, behind)) = escaped_byte(bytes_from(rest, at + 1)) else {
            return Err(LineError::Fault(FaultKind::Escape));
        };
        out.push(byte)?;
        rest = behind;
    }
}

/// How many bytes a word spells.
pub fn unescaped_len(word: &[u8]) -> Result<usize, LineError>
    ensures { LineGives (λ n. n) result (measured 0 (unescaped word.now)) }
{
    let mut len = 0;
    let mut rest = word;
    'escapes: loop {
        let at = length_before(rest, b'%');
        len += at;
        if at == rest.len() {
            return Ok(len);
        }
        let Some((_byte, behind)) = escaped_byte(bytes_from(rest, at + 1)) else {
            return Err(LineError::Fault(FaultKind::Escape));
        };
        len += 1;
        rest = behind;
    }
}

/// What a word spells.
pub fn unescaped(alloc: Global, word: &[u8]) -> Result<ByteText, LineError>
    ensures { LineGives (λ t. t) result (unescaped word.now) }
{
    let mut out = Vec::new(alloc);
    unescape_onto(&mut out, word)?;
    Ok(ByteText::from_vec(out))
}

fn begins_with_slash(word: &[u8]) -> bool
    ensures { result ≡ begins_with_slash word.now }
{
    match word {
        [] => false,
        [a] | [a, _] => *a == b'/',
        [a, b, c, ..] => {
            *a == b'/' || (*a == b'%' && (*b == b'2' && (*c == b'F' || *c == b'f')))
        }
    }
}

/// The word of a path.
pub fn path_word(word: &[u8]) -> Result<&[u8], LineError>
    ensures { LineGives (λ w. w.now) result (path_word word.now) }
{
    if !begins_with_slash(word) {
        return Err(LineError::Fault(FaultKind::Word));
    }
    Ok(word)
}
