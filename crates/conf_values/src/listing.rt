// The words of directives that are lists of values.
ghost use Rattle.std.specs.Prelude.{◌≡◌, ◌==◌, ◌≤◌, length, drop, is_some, IfOk};
ghost use Rattle.conf_values.specs.TextSet.{holds};
ghost use Rattle.conf_values.specs.Returning.{code_of as code_meant};
ghost use Rattle.conf_values.specs.Listing.{has_code, is_index_name, is_try_code, is_last_try, is_try, is_page_code, is_shown_code, is_shown, is_target, is_page_word, is_flag, is_rewrite_word, is_listed, are_listed};

use crate::host::is_server_name;
use crate::returned::code_of;
use crate::source::source_of;
use crate::text::is_text;
use crate::text_set::TextSet;
use crate::variable::is_variable;
use crate::word::{begins_with, rest_of};
use byte_text::{ByteText, OutOfMemory};
use conf_table::Listing;
use std::alloc::Global;

/// A name of `index`: the last alone, with none after it, may be a path of the site.
fn is_index_name(
    alloc: Global,
    known: &TextSet,
    left: usize,
    word: &[u8],
) -> Result<bool, OutOfMemory>
    ensures { IfOk result (λ r. r ≡ is_index_name (holds known.now.keys) left word.now) }
{
    let right = is_text(alloc, known, word)?;
    Ok(right && (left == 0 || !begins_with(word, b'/')))
}

#[tactic(auto, unfolding(crate::specs::Listing::is_try_code))]
fn is_try_code(code: u16) -> bool
    ensures { result ≡ is_try_code code }
{
    code == 301
        || code == 302
        || code == 303
        || code == 307
        || code == 308
        || (400 <= code && code != 444)
}

fn has_try_code(code: Option<u16>) -> bool
    ensures { result ≡ has_code is_try_code code }
{
    match code {
        None => false,
        Some(code) => is_try_code(code),
    }
}

/// What `try_files` comes to where it finds none of its names.
fn is_last_try(alloc: Global, known: &TextSet, word: &[u8]) -> Result<bool, OutOfMemory>
    ensures { IfOk result (λ r. r ≡ is_last_try (holds known.now.keys) word.now) }
{
    if begins_with(word, b'=') {
        return Ok(has_try_code(code_of(rest_of(word))));
    }
    if begins_with(word, b'@') {
        return Ok(true);
    }
    is_text(alloc, known, word)
}

fn is_try(alloc: Global, known: &TextSet, left: usize, word: &[u8]) -> Result<bool, OutOfMemory>
    ensures { IfOk result (λ r. r ≡ is_try (holds known.now.keys) left word.now) }
{
    if left == 0 {
        return is_last_try(alloc, known, word);
    }
    is_text(alloc, known, word)
}

#[tactic(auto, unfolding(crate::specs::Listing::is_page_code))]
fn is_page_code(code: u16) -> bool
    ensures { result ≡ is_page_code code }
{
    300 <= code && code != 499
}

fn has_page_code(code: Option<u16>) -> bool
    ensures { result ≡ has_code is_page_code code }
{
    match code {
        None => false,
        Some(code) => is_page_code(code),
    }
}

#[tactic(auto, unfolding(crate::specs::Listing::is_shown_code))]
fn has_shown_code(code: Option<u16>) -> bool
    ensures { result ≡ has_code is_shown_code code }
{
    match code {
        None => false,
        Some(code) => code != 444,
    }
}

/// `=` or `=CODE`.
fn is_shown(word: &[u8]) -> bool
    ensures { result ≡ is_shown word.now }
{
    word == b"=".as_slice() || has_shown_code(code_of(rest_of(word)))
}

/// The page of an error.
fn is_target(alloc: Global, known: &TextSet, word: &[u8]) -> Result<bool, OutOfMemory>
    ensures { IfOk result (λ r. r ≡ is_target (holds known.now.keys) word.now) }
{
    if begins_with(word, b'@') {
        return Ok(true);
    }
    is_text(alloc, known, word)
}

/// A word of `error_page`, by whether it is the first and by how many are after it.
fn is_page_word(
    alloc: Global,
    known: &TextSet,
    first: bool,
    left: usize,
    word: &[u8],
) -> Result<bool, OutOfMemory>
    ensures { IfOk result (λ r. r ≡ is_page_word (holds known.now.keys) first left word.now) }
{
    if left == 0 {
        let right = is_target(alloc, known, word)?;
        return Ok(!first && right);
    }
    if left == 1 && begins_with(word, b'=') {
        return Ok(!first && is_shown(word));
    }
    Ok(has_page_code(code_of(word)))
}

fn is_flag(word: &[u8]) -> bool
    ensures { result ≡ is_flag word.now }
{
    word == b"last".as_slice()
        || word == b"break".as_slice()
        || word == b"redirect".as_slice()
        || word == b"permanent".as_slice()
}

/// A word of `rewrite`, by how many are before it.
fn is_rewrite_word(
    alloc: Global,
    known: &TextSet,
    at: usize,
    word: &[u8],
) -> Result<bool, OutOfMemory>
    ensures { IfOk result (λ r. r ≡ is_rewrite_word (holds known.now.keys) at word.now) }
{
    match at {
        0 => Ok(true),
        1 => is_text(alloc, known, word),
        _ => Ok(is_flag(word)),
    }
}

/// A word of a list, by how many are before it and after it.
fn is_listed(
    alloc: Global,
    known: &TextSet,
    listing: Listing,
    at: usize,
    left: usize,
    word: &[u8],
) -> Result<bool, OutOfMemory>
    ensures { IfOk result (λ r. r ≡ is_listed (holds known.now.keys) listing at left word.now) }
{
    match listing {
        Listing::Index => is_index_name(alloc, known, left, word),
        Listing::TryFiles => is_try(alloc, known, left, word),
        Listing::ErrorPage => is_page_word(alloc, known, at == 0, left, word),
        Listing::Rewrite => is_rewrite_word(alloc, known, at, word),
        Listing::ServerName => Ok(is_server_name(word)),
        Listing::Allow | Listing::Deny => Ok(source_of(word).is_some()),
        Listing::SsiVisible => is_variable(alloc, known, word),
        Listing::SsiTypes | Listing::AdditionTypes => Ok(true),
    }
}

/// Whether these words are values of the directive, where the known names are those of the variables that are set.
#[tactic(auto, unfolding(crate::specs::Listing::are_listed_from))]
pub fn are_listed(
    alloc: Global,
    known: &TextSet,
    listing: Listing,
    words: &[ByteText],
) -> Result<bool, OutOfMemory>
    ensures { IfOk result (λ r. r ≡ are_listed (holds known.now.keys) listing words.now) }
{
    let mut at = 0;
    let mut rest = words;
    while let [word, behind @ ..] = rest {
        if !is_listed(alloc, known, listing, at, behind.len(), word.as_slice())? {
            return Ok(false);
        }
        at += 1;
        rest = behind;
    }
    Ok(true)
}
