// The values of names, and texts with variables.
ghost use Rattle.std.specs.Prelude.{◌≡◌, ℕ, ◌+◌, ◌<◌, ◌≤◌, true, List, [], ◌∷◌, ◌++◌, ◌==◌, ◌&&◌, length, drop, bytes_eq, IfOk, OnOk, None, Some, MatchOption, IfSome, option_map, unwrap_or};
ghost use Rattle.std.specs.List.{list_any};
ghost use Rattle.ngx_variables.specs.Grammar.{begins_with, reference_at};
ghost use Rattle.request_meaning.specs.Documents.{is_visible as sees, name_onto, tokens};
ghost use Rattle.ssi_values.specs.Known.{Known, is_mark, known_seen, named_text, seen_value, site_text, read_value, rest_value, filled_text, behind};

use crate::dated::{TEXT_LIMIT, append_dated};
use crate::names::name_at;
use crate::sight::Sight;
use byte_text::{ByteText, ByteTexts, OutOfMemory};
use ngx_variables::{Piece, lowercase, piece_named};
use std::alloc::Global;

fn is_among(names: &[ByteText], name: &[u8]) -> bool
    ensures { result ≡ list_any (bytes_eq name.now) names.now }
{
    for other in names {
        if name == other.as_slice() {
            return true;
        }
    }
    false
}

/// Whether a document sees a variable that was set.
fn is_visible(visible: &Option<ByteTexts>, name: &[u8]) -> bool
    ensures { result ≡ sees visible.now name.now }
{
    match visible {
        Some(names) => is_among(names.as_slice(), name),
        None => true,
    }
}

fn copied(alloc: Global, text: Option<&[u8]>) -> Result<Option<ByteText>, OutOfMemory>
    ensures { IfOk result (λ copy. copy ≡ option_map (λ text. text.now) text.entry) }
{
    match text {
        Some(text) => {
            let copy = ByteText::from_slice(alloc, text)?;
            Ok(Some(copy))
        }
        None => Ok(None),
    }
}

/// The value of a variable that was set, where the document sees it.
fn seen_value(
    alloc: Global,
    sight: &Sight<'_>,
    name: &[u8],
) -> Result<Option<ByteText>, OutOfMemory>
    ensures { IfOk result (λ value. value ≡ seen_value (known_seen sight.now) name.now) }
{
    if !is_visible(sight.visible, name) {
        return Ok(None);
    }
    let value = copied(alloc, sight.vars.get(name))?;
    Ok(value)
}

/// The value of a name that is no variable of the document's own.
fn site_value(
    alloc: Global,
    sight: &Sight<'_>,
    piece: &Piece,
) -> Result<Option<ByteText>, OutOfMemory>
    ensures { IfOk result (λ value. value ≡ site_text (known_seen sight.now) piece.now) }
{
    if let Piece::Set(name) = piece {
        let value = seen_value(alloc, sight, name.as_slice())?;
        return Ok(value);
    }
    let mut text = ByteText::new(alloc);
    append_dated(alloc, sight, piece, &mut text)?;
    Ok(Some(text))
}

/// What a name means in a document, in any case: a variable of its own, else a built-in one, else one that was set and that
/// the document sees; none where it has no value.
#[tactic(auto, unfolding(crate::specs::Known::named_text))]
pub fn named_value(
    alloc: Global,
    sight: &Sight<'_>,
    name: &[u8],
) -> Result<Option<ByteText>, OutOfMemory>
    ensures { IfOk result (λ value. value ≡ named_text (known_seen sight.now) name.now) }
{
    let name = lowercase(alloc, name)?;
    if let Some(value) = sight.ssi.get(name.as_slice()) {
        let own = ByteText::from_slice(alloc, value)?;
        return Ok(Some(own));
    }
    let piece = piece_named(alloc, name)?;
    let value = site_value(alloc, sight, &piece)?;
    Ok(value)
}

/// Writes a value, if there is one.
fn append_value(value: &Option<ByteText>, out: &mut ByteText) -> Result<(), OutOfMemory>
    ensures { OnOk result (out.new ≡ out.old ++ unwrap_or value.now []) }
{
    match value {
        Some(value) => {
            out.extend(value.as_slice())?;
            Ok(())
        }
        None => Ok(()),
    }
}

/// Writes the value of the variable whose `$` comes right before the text, if the text begins with a name: how many
/// bytes it takes.
fn append_named(
    alloc: Global,
    sight: &Sight<'_>,
    text: &[u8],
    out: &mut ByteText,
) -> Result<Option<usize>, OutOfMemory>
    ensures read { IfOk result (λ size. MatchOption size
        (read_value (known_seen sight.now)
        (name_onto text.now (reference_at text.now) (λ n. tokens n text.now)) ≡ None)
        (λ size. behind out.new (rest_value (known_seen sight.now) (drop size text.now))
        ≡ behind out.old (read_value (known_seen sight.now)
        (name_onto text.now (reference_at text.now) (λ n. tokens n text.now))))) }
    ensures within { IfOk result (λ size. IfSome size (λ size. size ≤ length text.now)) }
{
    match name_at(text) {
        Some(named) => {
            let value = named_value(alloc, sight, named.name)?;
            append_value(&value, out)?;
            Ok(Some(named.size))
        }
        None => Ok(None),
    }
}

/// Writes what a first byte and those after it begin with, if it can be read: how many of the bytes after it this
/// takes.
fn append_token(
    alloc: Global,
    sight: &Sight<'_>,
    first: u8,
    text: &[u8],
    out: &mut ByteText,
) -> Result<Option<usize>, OutOfMemory>
    ensures read { IfOk result (λ size. MatchOption size
        (rest_value (known_seen sight.now) (first ∷ text.now) ≡ None)
        (λ size. behind out.new (rest_value (known_seen sight.now) (drop size text.now))
        ≡ behind out.old (rest_value (known_seen sight.now) (first ∷ text.now)))) }
    ensures within { IfOk result (λ size. IfSome size (λ size. size ≤ length text.now)) }
{
    if is_escape(first, text) {
        out.push(b'$')?;
        return Ok(Some(1));
    }
    if first == b'$' {
        let size = append_named(alloc, sight, text, out)?;
        return Ok(size);
    }
    out.push(first)?;
    Ok(Some(0))
}

/// Whether `\$` is here.
fn is_escape(first: u8, text: &[u8]) -> bool
    ensures { result ≡ (first == 92 && begins_with 36 text.now) }
{
    match text {
        [b'$', ..] => first == b'\\',
        _ => false,
    }
}

/// The first byte of a text and those after it.
fn front(text: &[u8]) -> Option<(u8, &[u8])>
    ensures { MatchOption result (text.now ≡ []) (λ p. text.now ≡ p.0 ∷ p.1.now) }
{
    match text {
        [first, after @ ..] => Some((*first, after)),
        [] => None,
    }
}

/// Whether a byte is one that a text's variables or its escapes begin with.
fn is_mark(byte: u8) -> bool
    ensures { result ≡ is_mark byte }
{
    byte == b'$' || byte == b'\\'
}

fn has_mark(text: &[u8]) -> bool
    ensures { result ≡ list_any is_mark text.now }
{
    text.iter().any(|byte| is_mark(*byte))
}

/// Whether a text with its variables filled in is known to be itself: it has neither a `$` nor a backslash, and at most
/// 16384 bytes.
pub fn is_of_itself(text: &[u8]) -> bool
    ensures { result ≡ true → (k : Known) → filled_text k text.now ≡ Some text.now }
{
    if text.len() > TEXT_LIMIT {
        return false;
    }
    if has_mark(text) {
        return false;
    }
    true
}

/// A text with its variables filled in: `$name` and `${name}` name variables, `\$` means a `$`, and all other bytes
/// mean themselves. None where a `$` has no name, or the text has more than 16384 bytes then.
pub fn filled(
    alloc: Global,
    sight: &Sight<'_>,
    text: &[u8],
) -> Result<Option<ByteText>, OutOfMemory>
    ensures { IfOk result (λ filled. filled ≡ filled_text (known_seen sight.now) text.now) }
{
    let mut out = ByteText::new(alloc);
    let mut rest = text;
    while let Some((first, after)) = front(rest) {
        match append_token(alloc, sight, first, after, &mut out)? {
            Some(size) => {
                if out.len() > TEXT_LIMIT {
                    return Ok(None);
                }
                rest = &after[size..];
            }
            None => return Ok(None),
        }
    }
    Ok(Some(out))
}
