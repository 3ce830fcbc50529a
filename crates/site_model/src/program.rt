// Rewrite programs (nginx's rewrite module).
ghost use Rattle.std.specs.Prelude.{◌≡◌, ◌∷◌, ◌++◌, List, [], OnOk, OnErr};
ghost use Rattle.site_model.specs.declared.program.RewriteStep.{RewriteStep as Step};

use byte_text::{ByteText, OutOfMemory};
use ngx_variables::{Piece, Value};
use std::alloc::Global;
use std::marker::Model;

/// A test of the file system in an `if`: `-f`, `-d` or `-e`.
#[derive(Clone, Copy)]
pub enum FileTest {
    IsFile,
    IsFolder,
    IsThere,
}

/// The condition of an `if`, without its `!`. A pattern is named by its number in the set of the site's patterns.
#[derive(Drop)]
pub enum Test {
    IsSet(Piece),
    Equals { variable: Piece, text: Value },
    Matches { variable: Piece, pattern: u32 },
    OnFile { test: FileTest, path: Value },
}

/// What follows a `rewrite` that matched.
#[derive(Clone, Copy)]
pub enum Flag {
    NoFlag,
    Last,
    Break,
    Redirect,
    Permanent,
}

/// A directive of a rewrite program. The directives in the block of an `if` come right after it, `block` of them; in a
/// location the block is a level of its own.
#[derive(Drop)]
pub enum RewriteStep {
    Set {
        name: ByteText,
        text: Value,
    },
    If {
        test: Test,
        negated: bool,
        block: u32,
        level: Option<u32>,
    },
    Rewrite {
        pattern: u32,
        to: Value,
        is_url: bool,
        flag: Flag,
    },
    Return {
        code: u16,
        text: Option<Value>,
    },
    Stop,
}

/// The rewrite program of a level. Contracts see it as the list of its directives. No level inherits one.
#[derive(Drop)]
pub struct Program {
    steps: Vec<RewriteStep>,
}

impl Model for Program {
    ghost Value = { List Step };

    ghost view = { λ p. p.steps.items };
}

impl Program {
    /// A program without directives.
    pub fn new(alloc: Global) -> Self
        ensures { result ≡ [] }
    {
        Program {
            steps: Vec::new(alloc),
        }
    }

    /// Adds a directive after those that are there.
    pub fn push(&mut self, step: RewriteStep) -> Result<(), OutOfMemory>
        ensures ok { OnOk result (self.new ≡ self.old ++ step ∷ []) }
        ensures err { OnErr result (self.new ≡ self.old) }
    {
        self.steps.push(step)?;
        Ok(())
    }

    pub fn as_slice(&self) -> &[RewriteStep]
        ensures { result.now ≡ self.now }
    {
        self.steps.as_slice()
    }
}
