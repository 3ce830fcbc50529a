// Statements: words and the sign after them.
ghost use Rattle.std.specs.Prelude.{◌≡◌, ℕ, ◌+◌, ◌<◌, ◌≤◌, ◌^◌, [], length, IfOk};
ghost use Rattle.conf_text.specs.Tokens.{tokens};
ghost use Rattle.conf_text.specs.Statements.{led, statements, ReadsStatement};

use crate::token::{Sign, Token, read_token};
use crate::word::Cursor;
use byte_text::{ByteText, ByteTexts, OutOfMemory};
use std::alloc::Global;

/// A sign alone, or a word or more and the sign after them. `line` is that of the first word, and `at` the sign's.
#[derive(Drop)]
pub enum Statement {
    Bare {
        sign: Sign,
        at: u64,
    },
    Led {
        line: u64,
        name: ByteText,
        args: ByteTexts,
        sign: Sign,
        at: u64,
    },
}

/// Reads the words after a first one, and the sign after them.
fn read_args(
    alloc: Global,
    line: u64,
    name: ByteText,
    place: &mut Cursor,
    word: &mut ByteText,
) -> Result<Statement, OutOfMemory>
    requires room { place.old.line + length place.old.rest.now < 2 ^ 64 }
    ensures { IfOk result (λ statement. ReadsStatement statement
        (led line name [] (statements (tokens 0 place.old.line place.old.rest.now)))
        place.old.line place.old.rest.now place.new.line place.new.rest.now) }
{
    let mut args = ByteTexts::new(alloc);
    loop {
        match read_token(alloc, place, word)? {
            Token::Word { line: _, text } => args.push(text)?,
            Token::Mark { line: at, sign } => {
                return Ok(Statement::Led {
                    line,
                    name,
                    args,
                    sign,
                    at,
                });
            }
        }
    }
}

/// Reads the next statement, with `word` as its scratch paper.
pub fn read_statement(
    alloc: Global,
    place: &mut Cursor,
    word: &mut ByteText,
) -> Result<Statement, OutOfMemory>
    requires room { place.old.line + length place.old.rest.now < 2 ^ 64 }
    ensures { IfOk result (λ statement. ReadsStatement statement
        (statements (tokens 0 place.old.line place.old.rest.now))
        place.old.line place.old.rest.now place.new.line place.new.rest.now) }
{
    match read_token(alloc, place, word)? {
        Token::Word { line, text } => {
            let statement = read_args(alloc, line, text, place, word)?;
            Ok(statement)
        }
        Token::Mark { line, sign } => Ok(Statement::Bare { sign, at: line }),
    }
}
