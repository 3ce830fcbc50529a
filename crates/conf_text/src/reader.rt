// The reader of whole texts.
ghost use Rattle.std.specs.Prelude.{◌≡◌, ℕ, ◌≤◌, List, Ok, Err, IfOk, IfErr};
ghost use Rattle.conf_text.specs.declared.statement.Statement.{Statement};
ghost use Rattle.conf_text.specs.Statements.{ReadsStatement};
ghost use Rattle.conf_text.specs.Reading.{reading, OnFault, IsNested};
ghost use Rattle.conf_text.specs.Steps.{Steps};

use crate::directive::{Directive, Directives};
use crate::fault::{ConfError, ConfFault, FaultKind};
use crate::statement::{Statement, read_statement};
use crate::token::Sign;
use crate::word::Cursor;
use byte_text::ByteText;
use std::alloc::Global;

/// The most blocks that enclose each other.
const DEEPEST: u32 = 32;

/// What a statement does: it is a directive, ends a block, ends the text, or is a fault on this line.
#[derive(Drop)]
enum Step {
    Keep(Directive),
    Leave,
    Done,
    Stop(FaultKind, u64),
}

/// What a statement does that `depth` blocks enclose.
fn step_of(file: u32, depth: u32, statement: Statement) -> Step
    requires { depth ≤ 32 }
    ensures { (all : List Statement) (line : ℕ) (rest : List ℕ) (line' : ℕ) (rest' : List ℕ)
        → ReadsStatement statement all line rest line' rest'
        → Steps result file depth all line rest line' rest' }
{
    match statement {
        Statement::Bare { sign, at } => match sign {
            Sign::Semicolon => Step::Stop(FaultKind::UnexpectedSemicolon, at),
            Sign::Open => Step::Stop(FaultKind::UnexpectedBrace, at),
            Sign::Close => {
                if depth == 0 {
                    Step::Stop(FaultKind::UnexpectedBrace, at)
                } else {
                    Step::Leave
                }
            }
            Sign::End => {
                if depth == 0 {
                    Step::Done
                } else {
                    Step::Stop(FaultKind::UnexpectedEnd, at)
                }
            }
            Sign::Wrong(kind) => Step::Stop(kind, at),
        },
        Statement::Led {
            line,
            name,
            args,
            sign,
            at,
        } => match sign {
            Sign::Semicolon => Step::Keep(Directive {
                name,
                args,
                file,
                line,
                depth,
                block: false,
            }),
            Sign::Open => {
                if depth < DEEPEST {
                    Step::Keep(Directive {
                        name,
                        args,
                        file,
                        line,
                        depth,
                        block: true,
                    })
                } else {
                    Step::Stop(FaultKind::TooNested, at)
                }
            }
            Sign::Close => Step::Stop(FaultKind::UnexpectedBrace, at),
            Sign::End => Step::Stop(FaultKind::UnexpectedEnd, at),
            Sign::Wrong(kind) => Step::Stop(kind, at),
        },
    }
}

/// Reads a text of configuration: its directives in text order, or its first fault. `file` is the number that its
/// directives and its fault name it by.
///
/// The words and blocks are those of nginx's configuration files (nginx's documentation, "Configuration file
/// structure").
///
/// # Errors
///
/// `Fault` for the first fault in the text, and `OutOfMemory`.
pub fn parse(alloc: Global, file: u32, bytes: &[u8]) -> Result<Directives, ConfError>
    ensures ok { IfOk result (λ lines. reading file bytes.now ≡ Ok lines) }
    ensures fault { IfErr result (λ e. OnFault e (λ fault. reading file bytes.now ≡ Err fault)) }
    ensures nested { IfOk result (IsNested 0) }
{
    let mut place = Cursor {
        rest: bytes,
        line: 1,
    };
    let mut word = ByteText::new(alloc);
    let mut lines = Directives::new(alloc);
    let mut depth: u32 = 0;
    loop {
        let statement = read_statement(alloc, &mut place, &mut word)?;
        match step_of(file, depth, statement) {
            Step::Keep(directive) => {
                if directive.block {
                    depth += 1;
                }
                lines.push(directive)?;
            }
            Step::Leave => depth -= 1,
            Step::Done => return Ok(lines),
            Step::Stop(kind, line) => {
                return Err(ConfError::Fault(ConfFault {
                    kind,
                    file,
                    line,
                    word: None,
                }));
            }
        }
    }
}
