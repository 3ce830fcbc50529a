// Directives in text order.
ghost use Rattle.std.specs.Prelude.{◌≡◌, ℕ, ◌==◌, List, [], ◌∷◌, ◌++◌, length, OnOk, OnErr};
ghost use Rattle.conf_text.specs.Blocks.{block_of};

use byte_text::{ByteText, ByteTexts, OutOfMemory};
use std::alloc::Global;
use std::marker::Model;

/// A directive: its name, its parameters, the file and the line where its name is, how many blocks enclose it in its
/// file, and whether it opens a block.
#[derive(Clone, Debug, Drop)]
pub struct Directive {
    pub name: ByteText,
    pub args: ByteTexts,
    pub file: u32,
    pub line: u64,
    pub depth: u32,
    pub block: bool,
}

/// Directives in text order: the block of one comes right after it, one deeper. Contracts see the list.
#[derive(Clone, Debug, Drop)]
pub struct Directives {
    lines: Vec<Directive>,
}

impl Model for Directives {
    ghost use Rattle.std.specs.Prelude.{List};
    ghost use Rattle.conf_text.specs.declared.directive.Directive.{Directive};

    ghost Value = { List Directive };

    ghost view = { λ d. d.lines.items };
}

impl Directives {
    /// No directives, which takes no memory.
    pub fn new(alloc: Global) -> Self
        ensures { result ≡ [] }
    {
        Directives {
            lines: Vec::new(alloc),
        }
    }

    /// Takes these directives over, with no copy.
    pub fn from_vec(lines: Vec<Directive>) -> Self
        ensures { result ≡ lines.items }
    {
        Directives { lines }
    }

    /// Gives the directives back, with no copy.
    pub fn into_vec(self) -> Vec<Directive>
        ensures { result.items ≡ self }
    {
        self.lines
    }

    pub fn len(&self) -> usize
        ensures { result ≡ length self.now }
    {
        self.lines.len()
    }

    pub fn is_empty(&self) -> bool
        ensures { result ≡ (length self.now == 0) }
    {
        self.lines.is_empty()
    }

    pub fn as_slice(&self) -> &[Directive]
        ensures { result.now ≡ self.now }
    {
        self.lines.as_slice()
    }

    pub fn push(&mut self, directive: Directive) -> Result<(), OutOfMemory>
        ensures ok { OnOk result (self.new ≡ self.old ++ directive ∷ []) }
        ensures err { OnErr result (self.new ≡ self.old) }
    {
        self.lines.push(directive)?;
        Ok(())
    }
}

/// How many of the directives after one of this depth are in its block.
fn block_len(depth: u32, rest: &[Directive]) -> usize
    ensures { result ≡ length (block_of depth rest.now) }
{
    rest.iter().take_while(|d| d.depth > depth).count()
}

/// Parts the directives after one of this depth: those in its block, and those after the block. Takes no memory.
pub fn split_block(depth: u32, rest: &[Directive]) -> (&[Directive], &[Directive])
    ensures block { result.0.now ≡ block_of depth rest.now }
    ensures whole { rest.now ≡ result.0.now ++ result.1.now }
{
    rest.split_at(block_len(depth, rest))
}
