// Tokens of configuration text.
ghost use Rattle.std.specs.Prelude.{◌≡◌, ◌≢◌, ℕ, ◌+◌, ◌<◌, ◌≤◌, ◌^◌, false, ◌∷◌, length, IfOk};
ghost use Rattle.conf_text.specs.Words.{is_space as space};
ghost use Rattle.conf_text.specs.Tokens.{tokens, comment, is_quote, word_at};
ghost use Rattle.conf_text.specs.Places.{ReadsWord, ReadsToken};

use crate::fault::FaultKind;
use crate::word::{Cursor, first_of, is_space, line_after, read_plain, read_quoted};
use byte_text::{ByteText, OutOfMemory};
use std::alloc::Global;

/// What ends a directive, opens or ends a block, or ends the text: its end, or a fault within a word.
#[derive(Clone, Copy)]
pub enum Sign {
    Semicolon,
    Open,
    Close,
    End,
    Wrong(FaultKind),
}

/// A word or a sign, with the line on which it begins; a fault is on the line where it shows.
#[derive(Drop)]
pub enum Token {
    Word { line: u64, text: ByteText },
    Mark { line: u64, sign: Sign },
}

/// Passes the rest of a comment, up to its line feed.
fn pass_comment(place: &mut Cursor)
    ensures same { tokens (comment place.old.rest.now) place.old.line place.old.rest.now
        ≡ tokens 0 place.new.line place.new.rest.now }
    ensures within { length place.new.rest.now ≤ length place.old.rest.now }
    ensures line { place.new.line ≡ place.old.line }
{
    while let Some((first, after)) = first_of(place.rest) {
        if first == b'\n' {
            return;
        }
        place.rest = after;
    }
}

fn begins_quoted(byte: u8) -> bool
    ensures { result ≡ is_quote byte }
{
    byte == b'"' || byte == b'\''
}

/// Reads the word that begins here with this byte, which begins a word, into `word`.
fn read_word<'a>(
    first: u8,
    after: &'a [u8],
    place: &mut Cursor<'a>,
    word: &mut ByteText,
) -> Result<Option<FaultKind>, OutOfMemory>
    requires here { place.old.rest.now ≡ first ∷ after.now }
    requires room { place.old.line + length place.old.rest.now < 2 ^ 64 }
    ensures { IfOk result (λ fault.
        ReadsWord (word_at place.old.line first after.now) fault word.new
        place.old.line place.old.rest.now place.new.line place.new.rest.now) }
{
    word.clear();
    if begins_quoted(first) {
        place.rest = after;
        let fault = read_quoted(first, place, word)?;
        Ok(fault)
    } else {
        let fault = read_plain(place, word)?;
        Ok(fault)
    }
}

/// Reads the word that begins here as a token.
fn word_token<'a>(
    alloc: Global,
    first: u8,
    after: &'a [u8],
    place: &mut Cursor<'a>,
    word: &mut ByteText,
) -> Result<Token, OutOfMemory>
    requires here { place.old.rest.now ≡ first ∷ after.now }
    requires room { place.old.line + length place.old.rest.now < 2 ^ 64 }
    requires space { space first ≡ false }
    requires comment { first ≢ 35 }
    requires semicolon { first ≢ 59 }
    requires open { first ≢ 123 }
    requires close { first ≢ 125 }
    ensures { IfOk result (λ token.
        ReadsToken token place.old.line place.old.rest.now place.new.line place.new.rest.now) }
{
    let line = place.line;
    match read_word(first, after, place, word)? {
        None => {
            let text = ByteText::from_slice(alloc, word.as_slice())?;
            Ok(Token::Word { line, text })
        }
        Some(kind) => Ok(Token::Mark {
            line: place.line,
            sign: Sign::Wrong(kind),
        }),
    }
}

/// Reads the next token, with `word` as its scratch paper.
pub fn read_token(
    alloc: Global,
    place: &mut Cursor,
    word: &mut ByteText,
) -> Result<Token, OutOfMemory>
    requires room { place.old.line + length place.old.rest.now < 2 ^ 64 }
    ensures { IfOk result (λ token.
        ReadsToken token place.old.line place.old.rest.now place.new.line place.new.rest.now) }
{
    while let Some((first, after)) = first_of(place.rest) {
        if is_space(first) {
            place.rest = after;
            place.line = line_after(place.line, first);
        } else if first == b'#' {
            place.rest = after;
            pass_comment(place);
        } else if first == b';' {
            place.rest = after;
            return Ok(Token::Mark {
                line: place.line,
                sign: Sign::Semicolon,
            });
        } else if first == b'{' {
            place.rest = after;
            return Ok(Token::Mark {
                line: place.line,
                sign: Sign::Open,
            });
        } else if first == b'}' {
            place.rest = after;
            return Ok(Token::Mark {
                line: place.line,
                sign: Sign::Close,
            });
        } else {
            let token = word_token(alloc, first, after, place, word)?;
            return Ok(token);
        }
    }
    Ok(Token::Mark {
        line: place.line,
        sign: Sign::End,
    })
}
