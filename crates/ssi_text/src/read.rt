// A command that is read as it comes, with no search for its end first.
ghost use Rattle.std.specs.Prelude.{◌≡◌, ℕ, ◌+◌, ◌-◌, ◌<◌, ◌≤◌, ◌==◌, ◌&&◌, length, take, drop, get_or, Some, IfOk, IfSome, MatchOption};
ghost use Rattle.std.specs.List.{prefix_len};
ghost use Rattle.ssi_text.specs.Commands.{Outside, size, is_plain as is_plain_byte, is_word as is_word_byte, param_at, params as params_of, made as made_of};
ghost use Rattle.ssi_text.specs.Reads.{ReadParam, ReadParams, ReadCommand};

use crate::command::{assigned, is_word, space_len};
use crate::name::Name;
use crate::part::{Param, Params, Part};
use crate::place::{closes, is_plain, rest_of};
use byte_text::OutOfMemory;
use std::alloc::Global;

/// Whether a byte is one of a name, and no `-`.
fn is_letter(byte: u8) -> bool
    ensures { result ≡ (is_word_byte byte && is_plain_byte byte) }
{
    is_word(byte) && is_plain(byte)
}

/// How many bytes of a name come before the first `-`.
fn letters_len(bytes: &[u8]) -> usize
    ensures value { result ≡ prefix_len (λ b. is_word_byte b && is_plain_byte b) bytes.now }
    ensures within { result ≤ length bytes.now }
{
    bytes.iter().take_while(|b| is_letter(**b)).count()
}

/// Whether a `-` is first.
fn begins_with_dash(bytes: &[u8]) -> bool
    ensures { result ≡ (get_or bytes.now 0 0 == 45) }
{
    match bytes {
        [byte, ..] => *byte == b'-',
        _ => false,
    }
}

/// How many bytes of a name come first, where there is no `-` among them: one might end the command. Otherwise 0.
fn name_len(bytes: &[u8]) -> usize
    ensures word { 0 < result → result ≡ prefix_len is_word_byte bytes.now }
    ensures plain { result ≤ prefix_len is_plain_byte bytes.now }
    ensures within { result ≤ length bytes.now }
{
    let len = letters_len(bytes);
    if begins_with_dash(rest_of(bytes, len)) {
        return 0;
    }
    len
}

/// The parameter at the front and the number of its bytes, if it is seen that the command doesn't end in it.
fn read_param(alloc: Global, bytes: &[u8]) -> Result<Option<(Param, usize)>, OutOfMemory>
    ensures { IfOk result (λ found. IfSome found (λ p. ReadParam p.0 p.1 bytes.now)) }
{
    let len = name_len(bytes);
    if len == 0 {
        return Ok(None);
    }
    let found = assigned(alloc, &bytes[..len], rest_of(bytes, len))?;
    Ok(found)
}

/// All parameters up to the end of the command, and the number of bytes up to that end, if all are well formed.
fn read_params(alloc: Global, bytes: &[u8]) -> Result<Option<(Params, usize)>, OutOfMemory>
    ensures { IfOk result (λ found. IfSome found (λ p. ReadParams p.0 p.1 bytes.now)) }
{
    let mut found = Params::new(alloc);
    let mut at = 0;
    while at < bytes.len() {
        let gap = space_len(rest_of(bytes, at));
        at += gap;
        if closes(rest_of(bytes, at)) {
            return Ok(Some((found, at)));
        }
        if gap == 0 {
            return Ok(None);
        }
        match read_param(alloc, rest_of(bytes, at))? {
            Some((param, len)) => {
                found.push(param)?;
                at += len;
            }
            None => return Ok(None),
        }
    }
    Ok(None)
}

/// The command that these bytes after `<!--#` begin with, and its size, if it is well formed and has no `-` in a name. Of
/// all else nothing is said.
pub fn read_command(alloc: Global, bytes: &[u8]) -> Result<Option<(Part, usize)>, OutOfMemory>
    ensures { IfOk result (λ found. IfSome found (λ p. ReadCommand p.0 p.1 bytes.now)) }
{
    let before = space_len(bytes);
    let named = rest_of(bytes, before);
    let len = name_len(named);
    if len == 0 {
        return Ok(None);
    }
    match read_params(alloc, rest_of(named, len))? {
        Some((params, used)) => {
            let name = Name::lowercase(alloc, &named[..len])?;
            Ok(Some((Part::Command { name, params }, before + len + used + 3)))
        }
        None => Ok(None),
    }
}
