// The values of `return`.
ghost use Rattle.std.specs.Prelude.{◌≡◌, ℕ, ◌<◌, ◌==◌, List, option_map, IfOk};
ghost use Rattle.conf_values.specs.Returning.{code_of, is_url, is_special, form_with, form_of, text_of, return_by, has_texts, is_form as form_is_right, is_return};
ghost use Rattle.conf_values.specs.TextSet.{holds};
ghost use Rattle.conf_values.specs.Texts.{pieces_of};

use crate::text::{is_text, value_of};
use crate::text_set::TextSet;
use byte_text::{ByteText, OutOfMemory};
use site_model::Return;
use site_model::ngx_variables::Value;
use std::alloc::Global;
use text_words::is_decimal;

/// What the words of a `return` are: no value of it, one that is not served yet, or a code that is answered.
#[derive(Clone, Copy)]
pub enum Form {
    Wrong,
    Later,
    Answer(u16),
}

/// A status from 200 to 599.
#[tactic(auto, unfolding(crate::specs::Returning::code_of))]
pub fn code_of(word: &[u8]) -> Option<u16>
    ensures { result ≡ code_of word.now }
{
    match word {
        [a, b, c] => {
            if b'2' <= *a && *a <= b'5' && is_decimal(*b) && is_decimal(*c) {
                let hundreds = u16::from(*a - b'0');
                let tens = u16::from(*b - b'0');
                let ones = u16::from(*c - b'0');
                Some(100 * hundreds + 10 * tens + ones)
            } else {
                None
            }
        }
        _ => None,
    }
}

#[tactic(auto, unfolding(crate::specs::Returning::is_url))]
fn is_url(word: &[u8]) -> bool
    ensures { result ≡ is_url word.now }
{
    word.starts_with(b"http://") || word.starts_with(b"https://") || word.starts_with(b"$scheme")
}

#[tactic(auto, unfolding(crate::specs::Returning::is_special))]
fn is_special(code: u16) -> bool
    ensures { result ≡ is_special code }
{
    code == 301 || code == 302 || code == 303 || code == 307 || code == 308 || code == 444
}

fn form_with(code: Option<u16>) -> Form
    ensures { result ≡ form_with code }
{
    match code {
        None => Form::Wrong,
        Some(code) => {
            if is_special(code) {
                Form::Later
            } else {
                Form::Answer(code)
            }
        }
    }
}

/// What these words of a `return` are.
#[tactic(auto, unfolding(crate::specs::Returning::form_of))]
pub fn form_of(words: &[ByteText]) -> Form
    ensures { result ≡ form_of words.now }
{
    match words {
        [word] => {
            if is_url(word.as_slice()) {
                Form::Later
            } else {
                form_with(code_of(word.as_slice()))
            }
        }
        [code, _] => form_with(code_of(code.as_slice())),
        _ => Form::Wrong,
    }
}

/// The text after the code, if there is one.
fn text_of(alloc: Global, words: &[ByteText]) -> Result<Option<Value>, OutOfMemory>
    ensures { IfOk result (λ text. text ≡ option_map pieces_of (text_of words.now)) }
{
    match words {
        [_, text, ..] => {
            let text = value_of(alloc, text.as_slice())?;
            Ok(Some(text))
        }
        _ => Ok(None),
    }
}

/// What these words of a `return` answer, if they answer.
pub fn return_by(alloc: Global, words: &[ByteText]) -> Result<Option<Return>, OutOfMemory>
    ensures { IfOk result (λ r. r ≡ return_by (form_of words.now) words.now) }
{
    match form_of(words) {
        Form::Wrong => Ok(None),
        Form::Later => Ok(None),
        Form::Answer(code) => {
            let text = text_of(alloc, words)?;
            Ok(Some(Return { code, text }))
        }
    }
}

#[tactic(auto, unfolding(crate::specs::Returning::has_texts))]
fn has_texts(alloc: Global, known: &TextSet, words: &[ByteText]) -> Result<bool, OutOfMemory>
    ensures { IfOk result (λ r. r ≡ has_texts (holds known.now.keys) words.now) }
{
    match words {
        [] => Ok(false),
        [word] => {
            if is_url(word.as_slice()) {
                is_text(alloc, known, word.as_slice())
            } else {
                Ok(true)
            }
        }
        [_, text, ..] => is_text(alloc, known, text.as_slice()),
    }
}

fn is_form(words: &[ByteText]) -> bool
    ensures { result ≡ form_is_right (form_of words.now) }
{
    match form_of(words) {
        Form::Wrong => false,
        Form::Later | Form::Answer(_) => true,
    }
}

/// Whether the words are values of `return`, where the known names are those of the variables that are set.
pub fn is_return(alloc: Global, known: &TextSet, words: &[ByteText]) -> Result<bool, OutOfMemory>
    ensures { IfOk result (λ r. r ≡ is_return (holds known.now.keys) words.now) }
{
    if !is_form(words) {
        return Ok(false);
    }
    has_texts(alloc, known, words)
}
