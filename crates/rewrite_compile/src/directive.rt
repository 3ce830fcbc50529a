// What the words of each directive say.
ghost use Rattle.std.specs.Prelude.{◌≡◌, IfOk};
ghost use Rattle.std.specs.List.{list_all};
ghost use Rattle.ngx_variables.specs.Grammar.{is_name_byte as name_byte, lowercase as lowercase_of};
ghost use Rattle.conf_values.specs.TextSet.{holds};
ghost use Rattle.conf_values.specs.Returning.{is_url as url};
ghost use Rattle.rewrite_compile.specs.Conditions.{text_in};
ghost use Rattle.rewrite_compile.specs.Readings.{is_name as named, name_in, is_numbered as numbered, sets, set_named, set_reading, if_by, if_reading, flag_of, rewrites, rewrite_reading, moves, answers, answers_with, return_reading, break_reading, reading_by};

use crate::condition::{condition_of, text_in};
use crate::raw::{RawCondition, RawPattern, RawStep, Reading};
use byte_text::{ByteText, OutOfMemory};
use conf_text::FaultKind;
use conf_values::{TextSet, code_of};
use ngx_variables::{Value, is_builtin};
use site_model::Flag;
use std::alloc::Global;

fn is_name_byte(byte: u8) -> bool
    ensures { result ≡ name_byte byte }
{
    byte.is_ascii_alphanumeric() || byte == b'_'
}

fn are_name_bytes(bytes: &[u8]) -> bool
    ensures { result ≡ list_all name_byte bytes.now }
{
    for byte in bytes {
        if !is_name_byte(*byte) {
            return false;
        }
    }
    true
}

fn is_name(bytes: &[u8]) -> bool
    ensures { result ≡ named bytes.now }
{
    !bytes.is_empty() && are_name_bytes(bytes)
}

fn lowercase(alloc: Global, name: &[u8]) -> Result<ByteText, OutOfMemory>
    ensures { IfOk result (λ text. text ≡ lowercase_of name.now) }
{
    let mut bytes = name.to_vec(alloc)?;
    bytes.as_mut_slice().make_ascii_lowercase();
    Ok(ByteText::from_vec(bytes))
}

/// The variable of a word `$NAME`, in lower case.
#[tactic(auto, unfolding(crate::specs::Readings::name_in))]
fn name_in(alloc: Global, word: &[u8]) -> Result<Option<ByteText>, OutOfMemory>
    ensures { IfOk result (λ name. name ≡ name_in word.now) }
{
    match word {
        [] => Ok(None),
        [first, name @ ..] => {
            if *first == b'$' && is_name(name) {
                Ok(Some(lowercase(alloc, name)?))
            } else {
                Ok(None)
            }
        }
    }
}

/// Whether a name begins like a group of a match.
fn is_numbered(name: &[u8]) -> bool
    ensures { result ≡ numbered name.now }
{
    match name {
        [] => false,
        [first, ..] => b'1' <= *first && *first <= b'9',
    }
}

fn sets(name: ByteText, text: Option<Value>) -> Reading
    ensures { result ≡ sets name text }
{
    match text {
        Some(text) => Reading::Step(RawStep::Set { name, text }),
        None => Reading::Wrong(FaultKind::BadValue),
    }
}

fn set_named(
    alloc: Global,
    known: &TextSet,
    name: Option<ByteText>,
    text: &[u8],
) -> Result<Reading, OutOfMemory>
    ensures { IfOk result (λ reading.
        reading ≡ set_named (holds known.now.keys) name text.now) }
{
    match name {
        None => Ok(Reading::Wrong(FaultKind::BadValue)),
        Some(name) => {
            if is_builtin(name.as_slice()) {
                return Ok(Reading::Wrong(FaultKind::BuiltinSet));
            }
            if is_numbered(name.as_slice()) {
                return Ok(Reading::Wrong(FaultKind::BadValue));
            }
            let text = text_in(alloc, known, text)?;
            Ok(sets(name, text))
        }
    }
}

/// `set $NAME text`, where the known names are those of the variables that the configuration sets. A name that is built in
/// is the fault `BuiltinSet`.
pub fn set_reading(
    alloc: Global,
    known: &TextSet,
    words: &[ByteText],
) -> Result<Reading, OutOfMemory>
    ensures { IfOk result (λ reading. reading ≡ set_reading (holds known.now.keys) words.now) }
{
    match words {
        [variable, text] => {
            let name = name_in(alloc, variable.as_slice())?;
            let reading = set_named(alloc, known, name, text.as_slice())?;
            Ok(reading)
        }
        _ => Ok(Reading::Wrong(FaultKind::BadValue)),
    }
}

fn if_by(condition: Option<RawCondition>) -> Reading
    ensures { result ≡ if_by condition }
{
    match condition {
        Some(condition) => Reading::Step(RawStep::If(condition)),
        None => Reading::Wrong(FaultKind::BadValue),
    }
}

/// `if (condition)`: the words in parentheses are a file test and a text, a variable alone, or a variable, a comparison, and
/// a text or a regular expression.
pub fn if_reading(
    alloc: Global,
    known: &TextSet,
    words: &[ByteText],
) -> Result<Reading, OutOfMemory>
    ensures { IfOk result (λ reading. reading ≡ if_reading (holds known.now.keys) words.now) }
{
    let condition = condition_of(alloc, known, words)?;
    Ok(if_by(condition))
}

#[tactic(auto, unfolding(crate::specs::Readings::flag_of))]
fn flag_of(word: &[u8]) -> Option<Flag>
    ensures { result ≡ flag_of word.now }
{
    if word == b"last".as_slice() {
        Some(Flag::Last)
    } else if word == b"break".as_slice() {
        Some(Flag::Break)
    } else if word == b"redirect".as_slice() {
        Some(Flag::Redirect)
    } else if word == b"permanent".as_slice() {
        Some(Flag::Permanent)
    } else {
        None
    }
}

/// A text that is a whole address.
#[tactic(auto, unfolding(conf_values::specs::Returning::is_url))]
fn is_url(word: &[u8]) -> bool
    ensures { result ≡ url word.now }
{
    word.starts_with(b"http://") || word.starts_with(b"https://") || word.starts_with(b"$scheme")
}

fn rewrites(
    alloc: Global,
    pattern: &[u8],
    text: &[u8],
    to: Option<Value>,
    flag: Option<Flag>,
) -> Result<Reading, OutOfMemory>
    ensures { IfOk result (λ reading. reading ≡ rewrites pattern.now text.now to flag) }
{
    match (to, flag) {
        (Some(to), Some(flag)) => Ok(Reading::Step(RawStep::Rewrite {
            pattern: RawPattern {
                text: ByteText::from_slice(alloc, pattern)?,
                nocase: false,
            },
            to,
            is_url: is_url(text),
            flag,
        })),
        _ => Ok(Reading::Wrong(FaultKind::BadValue)),
    }
}

/// `rewrite regex text [flag]`.
pub fn rewrite_reading(
    alloc: Global,
    known: &TextSet,
    words: &[ByteText],
) -> Result<Reading, OutOfMemory>
    ensures { IfOk result (λ reading.
        reading ≡ rewrite_reading (holds known.now.keys) words.now) }
{
    match words {
        [pattern, text] => {
            let to = text_in(alloc, known, text.as_slice())?;
            let flag = Some(Flag::NoFlag);
            let reading = rewrites(alloc, pattern.as_slice(), text.as_slice(), to, flag)?;
            Ok(reading)
        }
        [pattern, text, flag] => {
            let to = text_in(alloc, known, text.as_slice())?;
            let flag = flag_of(flag.as_slice());
            let reading = rewrites(alloc, pattern.as_slice(), text.as_slice(), to, flag)?;
            Ok(reading)
        }
        _ => Ok(Reading::Wrong(FaultKind::BadValue)),
    }
}

fn moves(text: Option<Value>) -> Reading
    ensures { result ≡ moves text }
{
    match text {
        Some(text) => Reading::Step(RawStep::Return {
            code: 302,
            text: Some(text),
        }),
        None => Reading::Wrong(FaultKind::BadValue),
    }
}

fn answers(code: Option<u16>) -> Reading
    ensures { result ≡ answers code }
{
    match code {
        Some(code) => Reading::Step(RawStep::Return { code, text: None }),
        None => Reading::Wrong(FaultKind::BadValue),
    }
}

fn answers_with(code: Option<u16>, text: Option<Value>) -> Reading
    ensures { result ≡ answers_with code text }
{
    match (code, text) {
        (Some(code), Some(text)) => Reading::Step(RawStep::Return {
            code,
            text: Some(text),
        }),
        _ => Reading::Wrong(FaultKind::BadValue),
    }
}

/// `return code [text]`, or `return URL`, which is a redirect with the code 302.
pub fn return_reading(
    alloc: Global,
    known: &TextSet,
    words: &[ByteText],
) -> Result<Reading, OutOfMemory>
    ensures { IfOk result (λ reading.
        reading ≡ return_reading (holds known.now.keys) words.now) }
{
    match words {
        [word] => {
            if !is_url(word.as_slice()) {
                return Ok(answers(code_of(word.as_slice())));
            }
            let text = text_in(alloc, known, word.as_slice())?;
            Ok(moves(text))
        }
        [code, text] => {
            let text = text_in(alloc, known, text.as_slice())?;
            Ok(answers_with(code_of(code.as_slice()), text))
        }
        _ => Ok(Reading::Wrong(FaultKind::BadValue)),
    }
}

/// `break`.
pub fn break_reading(words: &[ByteText]) -> Reading
    ensures { result ≡ break_reading words.now }
{
    if words.is_empty() {
        Reading::Step(RawStep::Stop)
    } else {
        Reading::Wrong(FaultKind::BadValue)
    }
}

/// What a directive says by its name and its words; none of one that has no part in a rewrite program.
#[tactic(auto, unfolding(crate::specs::Readings::reading_by))]
pub fn reading_by(
    alloc: Global,
    known: &TextSet,
    name: &[u8],
    words: &[ByteText],
) -> Result<Option<Reading>, OutOfMemory>
    ensures { IfOk result (λ reading.
        reading ≡ reading_by (holds known.now.keys) name.now words.now) }
{
    if name == b"set".as_slice() {
        let reading = set_reading(alloc, known, words)?;
        Ok(Some(reading))
    } else if name == b"if".as_slice() {
        let reading = if_reading(alloc, known, words)?;
        Ok(Some(reading))
    } else if name == b"rewrite".as_slice() {
        let reading = rewrite_reading(alloc, known, words)?;
        Ok(Some(reading))
    } else if name == b"return".as_slice() {
        let reading = return_reading(alloc, known, words)?;
        Ok(Some(reading))
    } else if name == b"break".as_slice() {
        Ok(Some(break_reading(words)))
    } else {
        Ok(None)
    }
}
