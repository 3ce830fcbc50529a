// The words of a line.
ghost use Rattle.std.specs.Prelude.{◌≡◌, ℕ, ◌<◌, List, [], ◌∷◌, length, option_map, IfSome, MatchOption};
ghost use Rattle.std.specs.List.{list_all};
ghost use Rattle.replay_words.specs.Lines.{pieces_of, pieces_behind, front_of};
ghost use Rattle.replay_words.specs.Faults.{LineGives};
ghost use Rattle.replay_words.specs.Words.{is_graphic, is_word, words_of, first_word, no_word, one_word, keyword_of, is_conf, is_tree, is_events, is_dot, is_plus, is_times, is_dash, is_dash_alone, is_fail};

use crate::FaultKind;
use crate::faults::LineError;
use std::marker::Model;
use text_words::{bytes_from, bytes_to, length_before};

/// What a line of the tree or of the events is, by its first word.
#[derive(Clone, Copy, PartialEq, Eq)]
pub enum Keyword {
    File,
    Folder,
    Locked,
    Gone,
    Open,
    Bytes,
    End,
    Room,
    Run,
    Tick,
    Tree,
    Drain,
    Other,
}

/// The words of a line that are still to be read. Contracts see their list.
#[derive(Drop)]
pub struct Words<'a> {
    rest: Option<&'a [u8]>,
}

impl<'a> Model for Words<'a> {
    ghost Value = { List (List ℕ) };

    ghost view = { λ w. pieces_behind (option_map (λ r. r.now) w.rest) };
}

/// The text up to a space, and what comes after the space, if there is one.
fn cut(text: &[u8]) -> (&[u8], Option<&[u8]>)
    ensures pieces { pieces_of text.now
        ≡ result.0.now ∷ pieces_behind (option_map (λ r. r.now) result.1) }
    ensures shorter { IfSome result.1 (λ r. length r.now < length text.now) }
{
    let at = length_before(text, b' ');
    if at == text.len() {
        return (text, None);
    }
    (bytes_to(text, at), Some(bytes_from(text, at + 1)))
}

/// The text of a line up to a space.
pub fn front(line: &[u8]) -> &[u8]
    ensures { result.now ≡ front_of (pieces_of line.now) }
{
    cut(line).0
}

fn is_graphic(text: &[u8]) -> bool
    ensures { result ≡ list_all is_graphic text.now }
{
    text.iter().all(|b| 0x21 <= *b && *b <= 0x7e)
}

fn is_word(text: &[u8]) -> bool
    ensures { result ≡ is_word text.now }
{
    match text {
        [] => false,
        [_, ..] => is_graphic(text),
    }
}

/// Whether each piece of the line is a word.
fn has_words(line: &[u8]) -> bool
    ensures { result ≡ list_all is_word (pieces_of line.now) }
{
    let mut rest = line;
    'pieces: loop {
        let (word, behind) = cut(rest);
        if !is_word(word) {
            return false;
        }
        match behind {
            None => return true,
            Some(text) => rest = text,
        }
    }
}

/// What is between the spaces of a line, empty texts too.
pub fn pieces_of(line: &[u8]) -> Words<'_>
    ensures { result ≡ pieces_of line.now }
{
    Words { rest: Some(line) }
}

/// The words of a line.
#[tactic(auto, unfolding(crate::specs::Words::words_of))]
pub fn words_of(line: &[u8]) -> Result<Words<'_>, LineError>
    ensures { LineGives (λ w. w) result (words_of line.now) }
{
    if !has_words(line) {
        return Err(LineError::Fault(FaultKind::Word));
    }
    Ok(Words { rest: Some(line) })
}

/// A word, and the words after it.
pub fn first_word<'a>(words: Words<'a>) -> Result<(&'a [u8], Words<'a>), LineError>
    ensures { LineGives (λ x. (x.0.now, x.1)) result (first_word words.entry) }
{
    match words.rest {
        None => Err(LineError::Fault(FaultKind::Word)),
        Some(text) => {
            let (word, rest) = cut(text);
            Ok((word, Words { rest }))
        }
    }
}

/// A word and the words after it, if there is one.
pub fn next_word<'a>(words: Words<'a>) -> Option<(&'a [u8], Words<'a>)>
    ensures { MatchOption result (words.entry ≡ []) (λ x. words.entry ≡ x.0.now ∷ x.1) }
{
    match words.rest {
        None => None,
        Some(text) => {
            let (word, rest) = cut(text);
            Some((word, Words { rest }))
        }
    }
}

/// Whether one word is left, and it is `-`.
pub fn is_dash_alone(words: &Words<'_>) -> bool
    ensures { result ≡ is_dash_alone words.now }
{
    match words.rest {
        None => false,
        Some(text) => {
            let (word, rest) = cut(text);
            match rest {
                None => is_dash(word),
                Some(text) => {
                    let (_next, _behind) = cut(text);
                    false
                }
            }
        }
    }
}

/// Whether no word is left.
pub fn no_word(words: Words<'_>) -> Result<(), LineError>
    ensures { LineGives (λ x. x) result (no_word words.entry) }
{
    match words.rest {
        None => Ok(()),
        Some(text) => {
            let (_word, _rest) = cut(text);
            Err(LineError::Fault(FaultKind::Word))
        }
    }
}

/// A word alone.
pub fn one_word<'a>(words: Words<'a>) -> Result<&'a [u8], LineError>
    ensures { LineGives (λ x. x.now) result (one_word words.entry) }
{
    let (word, rest) = first_word(words)?;
    no_word(rest)?;
    Ok(word)
}

/// What a line is by its first word.
#[tactic(auto, unfolding(crate::specs::Words::keyword_of))]
pub fn keyword_of(word: &[u8]) -> Keyword
    ensures { result ≡ keyword_of word.now }
{
    if word == b"file".as_slice() {
        Keyword::File
    } else if word == b"folder".as_slice() {
        Keyword::Folder
    } else if word == b"locked".as_slice() {
        Keyword::Locked
    } else if word == b"gone".as_slice() {
        Keyword::Gone
    } else if word == b"open".as_slice() {
        Keyword::Open
    } else if word == b"bytes".as_slice() {
        Keyword::Bytes
    } else if word == b"end".as_slice() {
        Keyword::End
    } else if word == b"room".as_slice() {
        Keyword::Room
    } else if word == b"run".as_slice() {
        Keyword::Run
    } else if word == b"tick".as_slice() {
        Keyword::Tick
    } else if word == b"tree".as_slice() {
        Keyword::Tree
    } else if word == b"drain".as_slice() {
        Keyword::Drain
    } else {
        Keyword::Other
    }
}

#[tactic(auto, unfolding(crate::specs::Words::is_conf))]
pub fn is_conf(word: &[u8]) -> bool
    ensures { result ≡ is_conf word.now }
{
    word == b"conf".as_slice()
}

#[tactic(auto, unfolding(crate::specs::Words::is_tree))]
pub fn is_tree(word: &[u8]) -> bool
    ensures { result ≡ is_tree word.now }
{
    word == b"tree".as_slice()
}

#[tactic(auto, unfolding(crate::specs::Words::is_events))]
pub fn is_events(word: &[u8]) -> bool
    ensures { result ≡ is_events word.now }
{
    word == b"events".as_slice()
}

#[tactic(auto, unfolding(crate::specs::Words::is_dot))]
pub fn is_dot(word: &[u8]) -> bool
    ensures { result ≡ is_dot word.now }
{
    word == b".".as_slice()
}

#[tactic(auto, unfolding(crate::specs::Words::is_plus))]
pub fn is_plus(word: &[u8]) -> bool
    ensures { result ≡ is_plus word.now }
{
    word == b"+".as_slice()
}

#[tactic(auto, unfolding(crate::specs::Words::is_times))]
pub fn is_times(word: &[u8]) -> bool
    ensures { result ≡ is_times word.now }
{
    word == b"times".as_slice()
}

#[tactic(auto, unfolding(crate::specs::Words::is_dash))]
pub fn is_dash(word: &[u8]) -> bool
    ensures { result ≡ is_dash word.now }
{
    word == b"-".as_slice()
}

#[tactic(auto, unfolding(crate::specs::Words::is_fail))]
pub fn is_fail(word: &[u8]) -> bool
    ensures { result ≡ is_fail word.now }
{
    word == b"fail".as_slice()
}
