// Words and the spaces between them.
ghost use Rattle.std.specs.Prelude.{◌≡◌, IfOk, option_map};
ghost use Rattle.std.specs.List.{before_first, after_first};
ghost use Rattle.rewrite_compile.specs.Words.{is_space, joined, trim_front, trim_back, trimmed, first_word, other_words, before_end, within};

use byte_text::{ByteText, OutOfMemory};
use memchr::memchr;
use std::alloc::Global;

/// The words with a space between each and the next.
#[tactic(auto, unfolding(crate::specs::Words::joined))]
pub fn joined(alloc: Global, words: &[ByteText]) -> Result<ByteText, OutOfMemory>
    ensures { IfOk result (λ text. text ≡ joined words.now) }
{
    match words {
        [] => Ok(ByteText::new(alloc)),
        [first, others @ ..] => {
            let mut text = ByteText::from_slice(alloc, first.as_slice())?;
            for word in others {
                text.push(b' ')?;
                text.extend(word.as_slice())?;
            }
            Ok(text)
        }
    }
}

#[tactic(auto, unfolding(crate::specs::Words::trim_front))]
fn trim_front(text: &[u8]) -> &[u8]
    ensures { result.now ≡ trim_front text.now }
{
    let mut rest = text;
    while let [first, after @ ..] = rest {
        if *first != b' ' {
            return rest;
        }
        rest = after;
    }
    rest
}

fn trim_back(text: &[u8]) -> &[u8]
    ensures { result.now ≡ trim_back text.now }
{
    let mut rest = text;
    while let [before @ .., last] = rest {
        if *last != b' ' {
            return rest;
        }
        rest = before;
    }
    rest
}

/// Without the spaces at the front and at the end.
pub fn trimmed(text: &[u8]) -> &[u8]
    ensures { result.now ≡ trimmed text.now }
{
    trim_back(trim_front(text))
}

/// What comes before the first space, or all.
pub fn first_word(text: &[u8]) -> &[u8]
    ensures { result.now ≡ first_word text.now }
{
    match memchr(b' ', text) {
        Some(at) => &text[..at],
        None => text,
    }
}

fn after_word(text: &[u8]) -> &[u8]
    ensures { result.now ≡ after_first is_space text.now }
{
    match memchr(b' ', text) {
        Some(at) => &text[at + 1..],
        None => &[],
    }
}

/// What comes after the first word, without the spaces around it.
pub fn other_words(text: &[u8]) -> &[u8]
    ensures { result.now ≡ other_words text.now }
{
    trimmed(after_word(text))
}

fn before_end(text: &[u8]) -> Option<&[u8]>
    ensures { option_map (λ t. t.now) result ≡ before_end text.now }
{
    match text {
        [] => None,
        [before @ .., last] => { if *last == b')' { Some(before) } else { None } }
    }
}

/// What is within parentheses.
#[tactic(auto, unfolding(crate::specs::Words::within))]
pub fn within(text: &[u8]) -> Option<&[u8]>
    ensures { option_map (λ t. t.now) result ≡ within text.now }
{
    match text {
        [] => None,
        [first, rest @ ..] => {
            if *first == b'(' {
                before_end(rest)
            } else {
                None
            }
        }
    }
}
