// The parts of a document.
ghost use Rattle.std.specs.Prelude.{◌≡◌, ℕ, ◌==◌, List, [], ◌∷◌, ◌++◌, length, OnOk, OnErr};

use crate::name::Name;
use byte_text::{ByteText, OutOfMemory};
use std::alloc::Global;
use std::marker::Model;

/// A parameter of a command: its name in lower case, and its value.
#[derive(Clone, Debug, Drop)]
pub struct Param {
    pub name: Name,
    pub value: ByteText,
}

/// Parameters in their order. Contracts see the list.
#[derive(Clone, Debug, Drop)]
pub struct Params {
    params: Vec<Param>,
}

impl Model for Params {
    ghost use Rattle.std.specs.Prelude.{List};
    ghost use Rattle.ssi_text.specs.declared.part.Param.{Param};

    ghost Value = { List Param };

    ghost view = { λ p. p.params.items };
}

impl Params {
    /// No parameters, which takes no memory.
    pub fn new(alloc: Global) -> Self
        ensures { result ≡ [] }
    {
        Params {
            params: Vec::new(alloc),
        }
    }

    /// Takes these parameters over, with no copy.
    pub fn from_vec(params: Vec<Param>) -> Self
        ensures { result ≡ params.items }
    {
        Params { params }
    }

    /// Gives the parameters back, with no copy.
    pub fn into_vec(self) -> Vec<Param>
        ensures { result.items ≡ self }
    {
        self.params
    }

    pub fn len(&self) -> usize
        ensures { result ≡ length self.now }
    {
        self.params.len()
    }

    pub fn is_empty(&self) -> bool
        ensures { result ≡ (length self.now == 0) }
    {
        self.params.is_empty()
    }

    pub fn as_slice(&self) -> &[Param]
        ensures { result.now ≡ self.now }
    {
        self.params.as_slice()
    }

    pub fn push(&mut self, param: Param) -> Result<(), OutOfMemory>
        ensures ok { OnOk result (self.new ≡ self.old ++ param ∷ []) }
        ensures err { OnErr result (self.new ≡ self.old) }
    {
        self.params.push(param)?;
        Ok(())
    }
}

/// A part of a body that filters hand on.
#[derive(Clone, Debug, Drop)]
pub enum Part {
    /// Bytes that are taken as they are. Neighbours count as one.
    Text(ByteText),
    /// A command of a document, its name in lower case.
    Command { name: Name, params: Params },
    /// A command that isn't well formed, or none that ends within its bound.
    Bad,
    /// The place of what `add_before_body` adds.
    Before,
    /// The place of what `add_after_body` adds.
    After,
}

/// What is at the front of bytes that may go on: what only the bytes to come decide, one byte of text, or a part with
/// the number of its bytes.
#[derive(Drop)]
pub enum Front {
    Open,
    Plain,
    Whole(Part, usize),
}
