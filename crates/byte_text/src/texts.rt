// A list of texts.
ghost use Rattle.std.specs.Prelude.{◌≡◌, ℕ, ◌+◌, ◌≤◌, ◌<◌, ◌==◌, List, [], ◌∷◌, ◌++◌, length, OnOk, OnErr};

use crate::{ByteText, OutOfMemory};
use std::alloc::Global;
use std::marker::Model;

/// A list of texts. Contracts see it as a list of lists of bytes.
#[derive(Clone, Debug, Drop)]
pub struct ByteTexts {
    texts: Vec<ByteText>,
}

impl Model for ByteTexts {
    ghost Value = { List (List ℕ) };

    ghost view = { λ t. t.texts.items };
}

impl ByteTexts {
    /// The empty list, which takes no memory.
    pub fn new(alloc: Global) -> Self
        ensures { result ≡ [] }
    {
        ByteTexts {
            texts: Vec::new(alloc),
        }
    }

    /// Takes this list over, with no copy.
    pub fn from_vec(texts: Vec<ByteText>) -> Self
        ensures { result ≡ texts.items }
    {
        ByteTexts { texts }
    }

    /// Gives the list back, with no copy.
    pub fn into_vec(self) -> Vec<ByteText>
        ensures { result.items ≡ self }
    {
        self.texts
    }

    pub fn len(&self) -> usize
        ensures { result ≡ length self.now }
    {
        self.texts.len()
    }

    pub fn is_empty(&self) -> bool
        ensures { result ≡ (length self.now == 0) }
    {
        self.texts.is_empty()
    }

    pub fn as_slice(&self) -> &[ByteText]
        ensures { result.now ≡ self.now }
    {
        self.texts.as_slice()
    }

    pub fn push(&mut self, text: ByteText) -> Result<(), OutOfMemory>
        ensures ok { OnOk result (self.new ≡ self.old ++ text ∷ []) }
        ensures err { OnErr result (self.new ≡ self.old) }
    {
        self.texts.push(text)?;
        Ok(())
    }
}
