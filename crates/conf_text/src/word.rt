// Words of configuration text, quoted or not, with their escapes.
ghost use Rattle.std.specs.Prelude.{◌≡◌, ◌≢◌, ℕ, ◌+◌, ◌-◌, ◌<◌, ◌≤◌, ◌^◌, nat_le, false, List, [], ◌++◌, ◌∷◌, length, IfOk, MatchOption};
ghost use Rattle.std.specs.Bool.{OnTrue};
ghost use Rattle.conf_text.specs.Words.{Whole, Faulty, is_space as space, ends, may_follow, line_behind, plain, quoted, closed, pieces, escape};
ghost use Rattle.conf_text.specs.Places.{ReadsWord};

use crate::fault::FaultKind;
use byte_text::{ByteText, OutOfMemory};

/// The most bytes of a word, its escapes resolved.
const LIMIT: usize = 4096;

/// A place in a text: the bytes from there on, and its line, from 1.
#[derive(Drop)]
pub struct Cursor<'a> {
    pub rest: &'a [u8],
    pub line: u64,
}

/// White space: a space, a tab, a carriage return or a line feed.
pub fn is_space(byte: u8) -> bool
    ensures { result ≡ space byte }
{
    byte == b' ' || byte == b'\t' || byte == b'\r' || byte == b'\n'
}

/// The first byte, and the bytes after it.
pub fn first_of(bytes: &[u8]) -> Option<(u8, &[u8])>
    ensures { MatchOption result (bytes.now ≡ []) (λ p. bytes.now ≡ p.0 ∷ p.1.now) }
{
    match bytes {
        [] => None,
        [first, after @ ..] => Some((*first, after)),
    }
}

/// The line after a byte.
pub fn line_after(line: u64, byte: u8) -> u64
    requires { line + 1 < 2 ^ 64 }
    ensures value { result ≡ line_behind line byte }
    ensures within { result ≤ line + 1 }
{
    if byte == b'\n' { line + 1 } else { line }
}

/// Whether an unquoted word ends before this byte, where `dollar` says that a `$` comes right before it.
fn ends_word(byte: u8, dollar: bool) -> bool
    ensures { result ≡ ends dollar byte }
{
    is_space(byte) || byte == b';' || (byte == b'{' && !dollar)
}

/// Whether this byte may come right after a quoted word.
fn follows_quote(byte: u8) -> bool
    ensures { result ≡ may_follow byte }
{
    is_space(byte) || byte == b';' || byte == b'{' || byte == b')'
}

/// Puts a byte at the end of a word if there is room for it, and says whether there was.
fn put(word: &mut ByteText, byte: u8) -> Result<bool, OutOfMemory>
    ensures fits { IfOk result (λ fits. fits ≡ nat_le 1 (4096 - length word.old)) }
    ensures kept { IfOk result (λ fits. OnTrue fits (word.new ≡ word.old ++ byte ∷ [])) }
{
    if word.len() >= LIMIT {
        return Ok(false);
    }
    word.push(byte)?;
    Ok(true)
}

/// Puts what a backslash and this byte mean at the end of a word, if there is room for it.
#[tactic(auto, unfolding(crate::specs::Words::escape))]
fn put_escape(word: &mut ByteText, byte: u8) -> Result<bool, OutOfMemory>
    ensures fits { IfOk result (λ fits. fits
        ≡ nat_le (length (escape byte)) (4096 - length word.old)) }
    ensures kept { IfOk result (λ fits. OnTrue fits (word.new ≡ word.old ++ escape byte)) }
{
    match byte {
        b'"' | b'\'' | b'\\' => put(word, byte),
        b't' => put(word, b'\t'),
        b'r' => put(word, b'\r'),
        b'n' => put(word, b'\n'),
        _ => {
            if word.len() >= LIMIT - 1 {
                return Ok(false);
            }
            word.push(b'\\')?;
            word.push(byte)?;
            Ok(true)
        }
    }
}

/// Reads the rest of an unquoted word, at the end of a word that is still empty.
pub fn read_plain(place: &mut Cursor, word: &mut ByteText) -> Result<Option<FaultKind>, OutOfMemory>
    requires room { place.old.line + length place.old.rest.now < 2 ^ 64 }
    requires empty { word.old ≡ [] }
    ensures { IfOk result (λ fault.
        ReadsWord (plain false 4096 place.old.line (pieces place.old.rest.now)) fault word.new
        place.old.line place.old.rest.now place.new.line place.new.rest.now) }
{
    let mut dollar = false;
    while let Some((first, after)) = first_of(place.rest) {
        if first == b'\\' {
            let Some((second, beyond)) = first_of(after) else {
                return Ok(Some(FaultKind::UnexpectedEnd));
            };
            place.rest = beyond;
            place.line = line_after(place.line, second);
            if !put_escape(word, second)? {
                return Ok(Some(FaultKind::TokenTooLong));
            }
            dollar = false;
        } else {
            if ends_word(first, dollar) {
                return Ok(None);
            }
            place.rest = after;
            if !put(word, first)? {
                return Ok(Some(FaultKind::TokenTooLong));
            }
            dollar = first == b'$';
        }
    }
    Ok(Some(FaultKind::UnexpectedEnd))
}

/// What is wrong after the quote that ends a word, if anything is.
fn wrong_behind_quote(after: &[u8]) -> Option<FaultKind>
    ensures { (line : ℕ) → MatchOption result (closed line (pieces after.now) ≡ Whole [] 1)
        (λ kind. closed line (pieces after.now) ≡ Faulty kind line) }
{
    match first_of(after) {
        None => Some(FaultKind::UnexpectedEnd),
        Some((next, _)) => {
            if follows_quote(next) {
                None
            } else {
                Some(FaultKind::BadQuote)
            }
        }
    }
}

/// Reads the rest of a word that began with this quote, up to the quote that ends it and with it, at the end of a word
/// that is still empty.
pub fn read_quoted(
    quote: u8,
    place: &mut Cursor,
    word: &mut ByteText,
) -> Result<Option<FaultKind>, OutOfMemory>
    requires room { place.old.line + length place.old.rest.now < 2 ^ 64 }
    requires quote { quote ≢ 10 }
    requires empty { word.old ≡ [] }
    ensures { IfOk result (λ fault.
        ReadsWord (quoted quote 4096 place.old.line (pieces place.old.rest.now)) fault word.new
        place.old.line place.old.rest.now place.new.line place.new.rest.now) }
{
    while let Some((first, after)) = first_of(place.rest) {
        if first == b'\\' {
            let Some((second, beyond)) = first_of(after) else {
                return Ok(Some(FaultKind::UnexpectedEnd));
            };
            place.rest = beyond;
            place.line = line_after(place.line, second);
            if !put_escape(word, second)? {
                return Ok(Some(FaultKind::TokenTooLong));
            }
        } else if first == quote {
            place.rest = after;
            return Ok(wrong_behind_quote(after));
        } else {
            place.rest = after;
            place.line = line_after(place.line, first);
            if !put(word, first)? {
                return Ok(Some(FaultKind::TokenTooLong));
            }
        }
    }
    Ok(Some(FaultKind::UnexpectedEnd))
}
