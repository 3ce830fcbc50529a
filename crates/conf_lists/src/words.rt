// Words of directives as the values of a level.
ghost use Rattle.std.specs.Prelude.{◌≡◌, ◌∷◌, [], ◌++◌, map, option_map, codes, bytes_eq, OnOk, IfOk, IfSome, true, false};
ghost use Rattle.site_whole.specs.Whole.{index_seen, last_seen, tries_seen, shown_seen, target_seen, page_seen, auth_set_seen, media_seen};
ghost use Rattle.conf_values.specs.Returning.{code_of as code};
ghost use Rattle.conf_values.specs.Texts.{pieces_of};
ghost use Rattle.conf_values.specs.Variables.{variable_in as variable};
ghost use Rattle.conf_lists.specs.Words.{index_name, front_of, last_of, last_try, tries_with, tries_of, one, codes_in, shown_with, shown_by, target_of, page_with, page_of, rule_of, set_with, set_of, with_type, with_types, variables_in};

use access_rules::Rule;
use byte_text::{ByteText, ByteTexts, OutOfMemory};
use conf_values::{begins_with, code_of, rest_of, source_of, value_of, variable_in};
use ngx_variables::Value;
use site_model::{AuthSet, IndexName, LastTry, MediaTypes, PageRule, PageTarget, Shown, Tries};
use std::alloc::Global;

fn index_name(alloc: Global, word: &[u8]) -> Result<IndexName, OutOfMemory>
    ensures { IfOk result (λ name. index_seen name ≡ index_name word.now) }
{
    Ok(IndexName {
        text: value_of(alloc, word)?,
        is_path: begins_with(word, b'/'),
    })
}

fn push_index_name(
    alloc: Global,
    names: &mut Vec<IndexName>,
    word: &[u8],
) -> Result<(), OutOfMemory>
    ensures { OnOk result (map index_seen names.new.items ≡ map index_seen names.old.items
        ++ index_name word.now ∷ []) }
{
    names.push(index_name(alloc, word)?)?;
    Ok(())
}

/// Adds the names of an `index`.
pub fn push_index(
    alloc: Global,
    names: &mut Vec<IndexName>,
    words: &[ByteText],
) -> Result<(), OutOfMemory>
    ensures { OnOk result (map index_seen names.new.items ≡ map index_seen names.old.items
        ++ map index_name words.now) }
{
    for word in words {
        push_index_name(alloc, names, word.as_slice())?;
    }
    Ok(())
}

/// What `try_files` comes to where it finds none of its names.
fn last_try(alloc: Global, word: &[u8]) -> Result<LastTry, OutOfMemory>
    ensures { IfOk result (λ last. last_seen last ≡ last_try word.now) }
{
    if begins_with(word, b'=') {
        return Ok(LastTry::Code(code_of(rest_of(word)).unwrap_or(500)));
    }
    if begins_with(word, b'@') {
        return Ok(LastTry::Location(ByteText::from_slice(alloc, word)?));
    }
    Ok(LastTry::Path(value_of(alloc, word)?))
}

fn texts_of(alloc: Global, words: &[ByteText]) -> Result<Vec<Value>, OutOfMemory>
    ensures { IfOk result (λ texts. texts.items ≡ map pieces_of words.now) }
{
    let mut texts = Vec::new(alloc);
    for word in words {
        texts.push(value_of(alloc, word.as_slice())?)?;
    }
    Ok(texts)
}

fn tries_with(alloc: Global, names: &[ByteText], last: &[u8]) -> Result<Tries, OutOfMemory>
    ensures { IfOk result (λ tries. tries_seen tries ≡ tries_with names.now last.now) }
{
    Ok(Tries {
        names: texts_of(alloc, names)?,
        last: last_try(alloc, last)?,
    })
}

/// Words, by the last and by those before it.
#[derive(Clone, Copy)]
struct FrontAndLast<'a> {
    front: &'a [ByteText],
    last: &'a [u8],
}

/// Words by their last, if there are some.
fn ended(words: &[ByteText]) -> Option<FrontAndLast<'_>>
    ensures last { option_map (λ e. e.last.now) result ≡ last_of words.now }
    ensures front { IfSome result (λ e. e.front.now ≡ front_of words.now) }
{
    match words.split_last() {
        None => None,
        Some((last, front)) => Some(FrontAndLast {
            front,
            last: last.as_slice(),
        }),
    }
}

/// The names of a `try_files`, and what comes after them.
pub fn tries_of(alloc: Global, words: &[ByteText]) -> Result<Option<Tries>, OutOfMemory>
    ensures { IfOk result (λ tries. option_map tries_seen tries ≡ tries_of words.now) }
{
    match ended(words) {
        None => Ok(None),
        Some(ended) => Ok(Some(tries_with(alloc, ended.front, ended.last)?)),
    }
}

fn push_code(codes: &mut Vec<u16>, code: Option<u16>) -> Result<(), OutOfMemory>
    ensures { OnOk result (codes.new.items ≡ codes.old.items ++ one code) }
{
    match code {
        None => Ok(()),
        Some(code) => {
            codes.push(code)?;
            Ok(())
        }
    }
}

/// The codes among words.
fn codes_in(alloc: Global, words: &[ByteText]) -> Result<Vec<u16>, OutOfMemory>
    ensures { IfOk result (λ codes. codes.items ≡ codes_in words.now) }
{
    let mut codes = Vec::new(alloc);
    for word in words {
        push_code(&mut codes, code_of(word.as_slice()))?;
    }
    Ok(codes)
}

fn shown_with(code: Option<u16>) -> Shown
    ensures { shown_seen result ≡ shown_with code }
{
    match code {
        None => Shown::ByAnswer,
        Some(code) => Shown::Fixed(code),
    }
}

/// The status that is shown, by the last of the words before the page.
fn shown_by(front: &[ByteText]) -> Shown
    ensures { shown_seen result ≡ shown_by (last_of front.now) }
{
    match ended(front) {
        None => Shown::OwnCode,
        Some(ended) => {
            if begins_with(ended.last, b'=') {
                shown_with(code_of(rest_of(ended.last)))
            } else {
                Shown::OwnCode
            }
        }
    }
}

fn target_of(alloc: Global, word: &[u8]) -> Result<PageTarget, OutOfMemory>
    ensures { IfOk result (λ target. target_seen target ≡ target_of word.now) }
{
    if begins_with(word, b'@') {
        return Ok(PageTarget::Location(ByteText::from_slice(alloc, word)?));
    }
    if begins_with(word, b'/') {
        return Ok(PageTarget::Path(value_of(alloc, word)?));
    }
    Ok(PageTarget::Url(value_of(alloc, word)?))
}

fn page_with(alloc: Global, front: &[ByteText], target: &[u8]) -> Result<PageRule, OutOfMemory>
    ensures { IfOk result (λ page. page_seen page ≡ page_with front.now target.now) }
{
    Ok(PageRule {
        codes: codes_in(alloc, front)?,
        shown: shown_by(front),
        target: target_of(alloc, target)?,
    })
}

/// The rule of an `error_page`.
pub fn page_of(alloc: Global, words: &[ByteText]) -> Result<Option<PageRule>, OutOfMemory>
    ensures { IfOk result (λ page. option_map page_seen page ≡ page_of words.now) }
{
    match ended(words) {
        None => Ok(None),
        Some(ended) => Ok(Some(page_with(alloc, ended.front, ended.last)?)),
    }
}

/// The rule of an `allow` or a `deny`.
pub fn rule_of(allow: bool, words: &[ByteText]) -> Option<Rule>
    ensures { result ≡ rule_of allow words.now }
{
    match words {
        [] => None,
        [word, ..] => match source_of(word.as_slice()) {
            None => None,
            Some(source) => Some(Rule { allow, source }),
        },
    }
}

fn set_with(
    alloc: Global,
    name: Option<ByteText>,
    text: &[u8],
) -> Result<Option<AuthSet>, OutOfMemory>
    ensures { IfOk result (λ set. option_map auth_set_seen set ≡ set_with name text.now) }
{
    match name {
        None => Ok(None),
        Some(name) => {
            let text = value_of(alloc, text)?;
            Ok(Some(AuthSet { name, text }))
        }
    }
}

/// The variable and the text of an `auth_request_set`.
pub fn set_of(alloc: Global, words: &[ByteText]) -> Result<Option<AuthSet>, OutOfMemory>
    ensures { IfOk result (λ set. option_map auth_set_seen set ≡ set_of words.now) }
{
    match words {
        [word, text, ..] => {
            let name = variable_in(alloc, word.as_slice())?;
            Ok(set_with(alloc, name, text.as_slice())?)
        }
        _ => Ok(None),
    }
}

/// No media types beside text/html.
pub fn no_media(alloc: Global) -> MediaTypes
    ensures every { result.every ≡ false }
    ensures types { result.types ≡ [] }
{
    MediaTypes {
        every: false,
        types: ByteTexts::new(alloc),
    }
}

fn push_type(alloc: Global, media: &mut MediaTypes, word: &[u8]) -> Result<(), OutOfMemory>
    ensures { OnOk result (media_seen media.new ≡ with_type (media_seen media.old) word.now) }
{
    if word == b"*".as_slice() {
        media.every = true;
        return Ok(());
    }
    media.types.push(ByteText::from_slice(alloc, word)?)?;
    Ok(())
}

/// Adds the types of an `ssi_types` or an `addition_types`.
pub fn push_types(
    alloc: Global,
    media: &mut MediaTypes,
    words: &[ByteText],
) -> Result<(), OutOfMemory>
    ensures { OnOk result (media_seen media.new ≡ with_types (media_seen media.old) words.now) }
{
    for word in words {
        push_type(alloc, media, word.as_slice())?;
    }
    Ok(())
}

fn push_variable(names: &mut ByteTexts, name: Option<ByteText>) -> Result<(), OutOfMemory>
    ensures { OnOk result (names.new ≡ names.old ++ one name) }
{
    match name {
        None => Ok(()),
        Some(name) => {
            names.push(name)?;
            Ok(())
        }
    }
}

/// The variables of an `ssi_visible`, in lower case.
pub fn variables_in(alloc: Global, words: &[ByteText]) -> Result<ByteTexts, OutOfMemory>
    ensures { IfOk result (λ names. names ≡ variables_in words.now) }
{
    let mut names = ByteTexts::new(alloc);
    for word in words {
        push_variable(&mut names, variable_in(alloc, word.as_slice())?)?;
    }
    Ok(names)
}
