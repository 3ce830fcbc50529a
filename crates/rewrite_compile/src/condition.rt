// The condition of an `if`.
ghost use Rattle.std.specs.Prelude.{◌≡◌, IfOk, option_map};
ghost use Rattle.ngx_variables.specs.declared.value.Piece.{Piece as PieceRow};
ghost use Rattle.conf_values.specs.TextSet.{holds};
ghost use Rattle.rewrite_compile.specs.Conditions.{text_in, variable_alone, alone, file_word, operator, looks, equals, compares, asks, tests, condition_in, condition_within, condition_of};

use crate::raw::{RawCondition, RawPattern, RawTest};
use crate::words::{first_word, joined, other_words, trimmed, within};
use byte_text::{ByteText, OutOfMemory};
use conf_values::{TextSet, is_text, value_of};
use ngx_variables::{Piece, Value};
use site_model::FileTest;
use std::alloc::Global;

/// A file test, with or without `!`.
#[derive(Clone, Copy)]
pub struct FileWord {
    pub test: FileTest,
    pub negated: bool,
}

/// A comparison, with or without `!`; that with a regular expression may ignore the case of letters.
#[derive(Clone, Copy)]
pub enum Comparison {
    Equal { negated: bool },
    Match { nocase: bool, negated: bool },
}

/// A text with variables, each built in or of a known name.
#[tactic(auto, unfolding(crate::specs::Conditions::text_in))]
pub fn text_in(alloc: Global, known: &TextSet, text: &[u8]) -> Result<Option<Value>, OutOfMemory>
    ensures { IfOk result (λ value. value ≡ text_in (holds known.now.keys) text.now) }
{
    if !is_text(alloc, known, text)? {
        return Ok(None);
    }
    let value = value_of(alloc, text)?;
    Ok(Some(value))
}

/// One variable and nothing else.
fn variable_alone(alloc: Global, pieces: &[Piece]) -> Result<Option<Piece>, OutOfMemory>
    ensures { IfOk result (λ variable. variable ≡ variable_alone pieces.now) }
{
    match pieces {
        [Piece::Literal(_)] => Ok(None),
        [variable] => {
            let variable = variable.copy(alloc)?;
            Ok(Some(variable))
        }
        _ => Ok(None),
    }
}

fn variable_in(alloc: Global, known: &TextSet, word: &[u8]) -> Result<Option<Piece>, OutOfMemory>
    ensures { IfOk result (λ variable.
        variable ≡ alone (text_in (holds known.now.keys) word.now)) }
{
    match text_in(alloc, known, word)? {
        Some(text) => {
            let variable = variable_alone(alloc, text.pieces())?;
            Ok(variable)
        }
        None => Ok(None),
    }
}

fn on_file(test: FileTest, negated: bool) -> Option<FileWord>
    ensures { result ≡ Some (record { test = test; negated = negated }) }
{
    Some(FileWord { test, negated })
}

/// `-f`, `-d` or `-e`, with or without `!`.
#[tactic(auto, unfolding(crate::specs::Conditions::file_word))]
fn file_word(word: &[u8]) -> Option<FileWord>
    ensures { result ≡ file_word word.now }
{
    if word == b"-f".as_slice() {
        on_file(FileTest::IsFile, false)
    } else if word == b"-d".as_slice() {
        on_file(FileTest::IsFolder, false)
    } else if word == b"-e".as_slice() {
        on_file(FileTest::IsThere, false)
    } else if word == b"!-f".as_slice() {
        on_file(FileTest::IsFile, true)
    } else if word == b"!-d".as_slice() {
        on_file(FileTest::IsFolder, true)
    } else if word == b"!-e".as_slice() {
        on_file(FileTest::IsThere, true)
    } else {
        None
    }
}

/// `=`, `~` or `~*`, with or without `!`.
#[tactic(auto, unfolding(crate::specs::Conditions::operator))]
fn operator(word: &[u8]) -> Option<Comparison>
    ensures { result ≡ operator word.now }
{
    if word == b"=".as_slice() {
        Some(Comparison::Equal { negated: false })
    } else if word == b"!=".as_slice() {
        Some(Comparison::Equal { negated: true })
    } else if word == b"~".as_slice() {
        Some(Comparison::Match {
            nocase: false,
            negated: false,
        })
    } else if word == b"~*".as_slice() {
        Some(Comparison::Match {
            nocase: true,
            negated: false,
        })
    } else if word == b"!~".as_slice() {
        Some(Comparison::Match {
            nocase: false,
            negated: true,
        })
    } else if word == b"!~*".as_slice() {
        Some(Comparison::Match {
            nocase: true,
            negated: true,
        })
    } else {
        None
    }
}

fn looks(word: FileWord, path: Option<Value>) -> Option<RawCondition>
    ensures { result ≡ looks word path }
{
    match path {
        Some(path) => Some(RawCondition {
            test: RawTest::OnFile {
                test: word.test,
                path,
            },
            negated: word.negated,
        }),
        None => None,
    }
}

fn equals(variable: Piece, negated: bool, text: Option<Value>) -> Option<RawCondition>
    ensures { result ≡ equals variable negated text }
{
    match text {
        Some(text) => Some(RawCondition {
            test: RawTest::Equals { variable, text },
            negated,
        }),
        None => None,
    }
}

/// A variable compared with a text, or searched for a regular expression.
fn compares(
    alloc: Global,
    known: &TextSet,
    variable: Piece,
    operator: Option<Comparison>,
    right: &[u8],
) -> Result<Option<RawCondition>, OutOfMemory>
    ensures { IfOk result (λ condition.
        condition ≡ compares (holds known.now.keys) variable operator right.now) }
{
    match operator {
        Some(Comparison::Equal { negated }) => {
            let text = text_in(alloc, known, right)?;
            Ok(equals(variable, negated, text))
        }
        Some(Comparison::Match { nocase, negated }) => {
            let text = ByteText::from_slice(alloc, right)?;
            Ok(Some(RawCondition {
                test: RawTest::Matches {
                    variable,
                    pattern: RawPattern { text, nocase },
                },
                negated,
            }))
        }
        None => Ok(None),
    }
}

/// A variable alone, or compared with what follows.
fn asks(
    alloc: Global,
    known: &TextSet,
    variable: Option<Piece>,
    rest: &[u8],
) -> Result<Option<RawCondition>, OutOfMemory>
    ensures { IfOk result (λ condition.
        condition ≡ asks (holds known.now.keys) variable rest.now) }
{
    match variable {
        None => Ok(None),
        Some(variable) => {
            if rest.is_empty() {
                return Ok(Some(RawCondition {
                    test: RawTest::IsSet(variable),
                    negated: false,
                }));
            }
            let condition = compares(
                alloc,
                known,
                variable,
                operator(first_word(rest)),
                other_words(rest),
            )?;
            Ok(condition)
        }
    }
}

fn tests(
    alloc: Global,
    known: &TextSet,
    word: Option<FileWord>,
    text: &[u8],
) -> Result<Option<RawCondition>, OutOfMemory>
    ensures { IfOk result (λ condition.
        condition ≡ tests (holds known.now.keys) word text.now) }
{
    match word {
        Some(word) => {
            let path = text_in(alloc, known, other_words(text))?;
            Ok(looks(word, path))
        }
        None => {
            let variable = variable_in(alloc, known, first_word(text))?;
            let condition = asks(alloc, known, variable, other_words(text))?;
            Ok(condition)
        }
    }
}

/// The condition that a text is, without parentheses.
#[tactic(auto, unfolding(crate::specs::Conditions::condition_in))]
fn condition_in(
    alloc: Global,
    known: &TextSet,
    text: &[u8],
) -> Result<Option<RawCondition>, OutOfMemory>
    ensures { IfOk result (λ condition.
        condition ≡ condition_in (holds known.now.keys) text.now) }
{
    tests(alloc, known, file_word(first_word(text)), text)
}

fn condition_within(
    alloc: Global,
    known: &TextSet,
    text: Option<&[u8]>,
) -> Result<Option<RawCondition>, OutOfMemory>
    ensures { IfOk result (λ condition. condition
        ≡ condition_within (holds known.now.keys) (option_map (λ t. t.now) text.entry)) }
{
    match text {
        Some(text) => condition_in(alloc, known, trimmed(text)),
        None => Ok(None),
    }
}

/// The condition that the words of an `if` are; none where they are none.
#[tactic(auto, unfolding(crate::specs::Conditions::condition_of))]
pub fn condition_of(
    alloc: Global,
    known: &TextSet,
    words: &[ByteText],
) -> Result<Option<RawCondition>, OutOfMemory>
    ensures { IfOk result (λ condition.
        condition ≡ condition_of (holds known.now.keys) words.now) }
{
    let text = joined(alloc, words)?;
    let condition = condition_within(alloc, known, within(text.as_slice()))?;
    Ok(condition)
}
