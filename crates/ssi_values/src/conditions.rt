// The conditions of `if` and `elif`.
ghost use Rattle.std.specs.Prelude.{◌≡◌, ℕ, ◌+◌, ◌<◌, ◌≤◌, ◌==◌, nat_eq, bytes_eq, Some, List, [], ◌∷◌, length, take, position, IfOk};
ghost use Rattle.std.specs.List.{ends_with};
ghost use Rattle.ngx_variables.specs.Pairs.{trimmed};
ghost use Rattle.request_meaning.specs.Documents.{is_full as fills, is_pattern as has_slashes, left_side, same_text};
ghost use Rattle.ssi_values.specs.Known.{known_seen, compared_truth, sides_truth, truth_of, truth_seen};

use crate::sight::Sight;
use crate::values::filled;
use byte_text::{ByteText, OutOfMemory};
use ngx_variables::{without_first_spaces, without_last_spaces};
use std::alloc::Global;

/// What a condition says: true or false; or it can't be read; or its right side is a regular expression, of which there are
/// none here.
#[derive(Clone, Copy)]
pub enum Truth {
    Is(bool),
    Unread,
    Pattern,
}

fn trimmed(text: &[u8]) -> &[u8]
    ensures { result.now ≡ trimmed text.now }
{
    without_last_spaces(without_first_spaces(text))
}

/// Whether a side is a regular expression.
fn is_pattern(text: &[u8]) -> bool
    ensures { result ≡ has_slashes text.now }
{
    text.starts_with(b"/") && text.ends_with(b"/") && text.len() >= 2
}

fn is_unequal(left: &[u8]) -> bool
    ensures { result ≡ ends_with nat_eq left.now (33 ∷ []) }
{
    left.ends_with(b"!")
}

/// A left side without the `!` of `!=`.
fn left_side(text: &[u8]) -> &[u8]
    ensures { result.now ≡ left_side text.now }
{
    if is_unequal(text) {
        &text[..text.len() - 1]
    } else {
        text
    }
}

fn is_full(text: &Option<ByteText>) -> Truth
    ensures { truth_seen result ≡ fills text.now }
{
    match text {
        Some(text) => Truth::Is(!text.is_empty()),
        None => Truth::Unread,
    }
}

fn is_same(left: &[u8], right: &[u8]) -> bool
    ensures { result ≡ bytes_eq left.now right.now }
{
    left == right
}

fn same_as(unequal: bool, left: &ByteText, right: &Option<ByteText>) -> Truth
    ensures { truth_seen result ≡ same_text unequal (Some left.now) right.now }
{
    match right {
        Some(right) => {
            let is_same = is_same(left.as_slice(), right.as_slice());
            Truth::Is(if unequal { !is_same } else { is_same })
        }
        None => Truth::Unread,
    }
}

fn same_text(unequal: bool, left: &Option<ByteText>, right: &Option<ByteText>) -> Truth
    ensures { truth_seen result ≡ same_text unequal left.now right.now }
{
    match left {
        Some(left) => same_as(unequal, left, right),
        None => Truth::Unread,
    }
}

fn compared(
    alloc: Global,
    sight: &Sight<'_>,
    unequal: bool,
    left: &[u8],
    right: &[u8],
) -> Result<Truth, OutOfMemory>
    ensures { IfOk result (λ truth. truth_seen truth
        ≡ compared_truth (known_seen sight.now) unequal left.now right.now) }
{
    if is_pattern(right) {
        return Ok(Truth::Pattern);
    }
    let left = filled(alloc, sight, left)?;
    let right = filled(alloc, sight, right)?;
    Ok(same_text(unequal, &left, &right))
}

/// What the two sides of the first `=` say.
fn sides(alloc: Global, sight: &Sight<'_>, left: &[u8], right: &[u8]) -> Result<Truth, OutOfMemory>
    ensures { IfOk result (λ truth. truth_seen truth
        ≡ sides_truth (known_seen sight.now) left.now right.now) }
{
    let unequal = is_unequal(left);
    let truth = compared(
        alloc,
        sight,
        unequal,
        trimmed(left_side(left)),
        trimmed(right),
    )?;
    Ok(truth)
}

fn equals_at(text: &[u8]) -> Option<usize>
    ensures { result ≡ position (λ b. b == 61) text.now }
{
    text.iter().position(|b| *b == b'=')
}

/// What a condition says: `TEXT` is true where the text isn't empty; `LEFT = RIGHT` and `LEFT != RIGHT` compare, by the first
/// `=`. A text in which a `$` has no name, or that is too long, can't be read.
pub fn condition(alloc: Global, sight: &Sight<'_>, text: &[u8]) -> Result<Truth, OutOfMemory>
    ensures { IfOk result (λ truth. truth_seen truth ≡ truth_of (known_seen sight.now) text.now) }
{
    match equals_at(text) {
        Some(at) => {
            let truth = sides(alloc, sight, &text[..at], &text[at + 1..])?;
            Ok(truth)
        }
        None => {
            let text = filled(alloc, sight, trimmed(text))?;
            Ok(is_full(&text))
        }
    }
}
