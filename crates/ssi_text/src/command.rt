// What the inside of a command says.
ghost use Rattle.std.specs.Prelude.{◌≡◌, ℕ, ◌+◌, ◌-◌, ◌<◌, ◌≤◌, ◌==◌, ◌&&◌, length, take, drop, IfOk, IfSome, MatchOption};
ghost use Rattle.std.specs.List.{prefix_len};
ghost use Rattle.ssi_text.specs.Commands.{is_space as is_space_byte, is_word as is_word_byte, is_quote as is_quote_byte, is_escape, unescaped as unescaped_of, assigned as assigned_of, param_at, params as params_of, made as made_of};

use crate::name::Name;
use crate::part::{Param, Params, Part};
use crate::place::{is_quote, quoted_len, rest_of};
use byte_text::{ByteText, OutOfMemory};
use std::alloc::Global;

fn is_space(byte: u8) -> bool
    ensures { result ≡ is_space_byte byte }
{
    byte == b' ' || byte == b'\t' || byte == b'\n' || byte == b'\r'
}

pub fn is_word(byte: u8) -> bool
    ensures { result ≡ is_word_byte byte }
{
    !(is_space(byte) || byte == b'=' || is_quote(byte))
}

/// How many bytes of white space come first.
pub fn space_len(bytes: &[u8]) -> usize
    ensures value { result ≡ prefix_len is_space_byte bytes.now }
    ensures within { result ≤ length bytes.now }
{
    bytes.iter().take_while(|b| is_space(**b)).count()
}

/// How many bytes of a name come first.
fn word_len(bytes: &[u8]) -> usize
    ensures value { result ≡ prefix_len is_word_byte bytes.now }
    ensures within { result ≤ length bytes.now }
{
    bytes.iter().take_while(|b| is_word(**b)).count()
}

/// Whether the first byte is a backslash, and the next a quote or a backslash.
fn escapes(bytes: &[u8]) -> bool
    ensures { result ≡ is_escape bytes.now }
{
    match bytes {
        [backslash, next, ..] => *backslash == b'\\' && (is_quote(*next) || *next == b'\\'),
        _ => false,
    }
}

/// A value, without the backslashes before a quote or a backslash.
fn unescaped(alloc: Global, raw: &[u8]) -> Result<ByteText, OutOfMemory>
    ensures { IfOk result (λ value. value ≡ unescaped_of raw.now) }
{
    if !raw.contains(&b'\\') {
        let value = ByteText::from_slice(alloc, raw)?;
        return Ok(value);
    }
    let mut value = ByteText::new(alloc);
    value.reserve(raw.len())?;
    let mut at = 0;
    while at < raw.len() {
        if escapes(rest_of(raw, at)) {
            value.push(raw[at + 1])?;
            at += 2;
        } else {
            value.push(raw[at])?;
            at += 1;
        }
    }
    Ok(value)
}

/// Whether these two bytes begin a parameter's value.
fn begins_value(equals: u8, quote: u8) -> bool
    ensures { result ≡ ((equals == 61) && is_quote_byte quote) }
{
    equals == b'=' && is_quote(quote)
}

/// The value after a parameter's name, and the parameter with the number of its bytes.
pub fn assigned(
    alloc: Global,
    name: &[u8],
    bytes: &[u8],
) -> Result<Option<(Param, usize)>, OutOfMemory>
    ensures value { IfOk result (λ found. found
        ≡ assigned_of name.now (length name.now) bytes.now) }
    ensures within { IfOk result (λ found. IfSome found
        (λ p. p.1 ≤ length name.now + length bytes.now)) }
{
    let [equals, quote, rest @ ..] = bytes else {
        return Ok(None);
    };
    if !begins_value(*equals, *quote) {
        return Ok(None);
    }
    match quoted_len(*quote, rest) {
        Some(len) => {
            let value = unescaped(alloc, &rest[..len - 1])?;
            let name_text = Name::lowercase(alloc, name)?;
            let param = Param {
                name: name_text,
                value,
            };
            Ok(Some((param, name.len() + (2 + len))))
        }
        None => Ok(None),
    }
}

/// The parameter at the front and the number of its bytes, if there is one.
fn param(alloc: Global, bytes: &[u8]) -> Result<Option<(Param, usize)>, OutOfMemory>
    ensures value { IfOk result (λ found. found ≡ param_at bytes.now) }
    ensures within { IfOk result (λ found. IfSome found (λ p. p.1 ≤ length bytes.now)) }
{
    let len = word_len(bytes);
    if len == 0 {
        return Ok(None);
    }
    let found = assigned(alloc, &bytes[..len], rest_of(bytes, len))?;
    Ok(found)
}

/// Parameters, each after white space, and white space: all that the bytes are, or none.
fn params(alloc: Global, bytes: &[u8]) -> Result<Option<Params>, OutOfMemory>
    ensures { IfOk result (λ found. found ≡ params_of bytes.now) }
{
    let mut found = Params::new(alloc);
    let mut at = 0;
    while at < bytes.len() {
        let gap = space_len(rest_of(bytes, at));
        if gap == bytes.len() - at {
            return Ok(Some(found));
        }
        if gap == 0 {
            return Ok(None);
        }
        at += gap;
        match param(alloc, rest_of(bytes, at))? {
            Some((param, len)) => {
                found.push(param)?;
                at += len;
            }
            None => return Ok(None),
        }
    }
    Ok(Some(found))
}

/// The part that a command of this inside is.
pub fn made(alloc: Global, inside: &[u8]) -> Result<Part, OutOfMemory>
    ensures { IfOk result (λ part. part ≡ made_of inside.now) }
{
    let bytes = rest_of(inside, space_len(inside));
    let len = word_len(bytes);
    if len == 0 {
        return Ok(Part::Bad);
    }
    match params(alloc, rest_of(bytes, len))? {
        Some(params) => {
            let name = Name::lowercase(alloc, &bytes[..len])?;
            Ok(Part::Command { name, params })
        }
        None => Ok(Part::Bad),
    }
}
