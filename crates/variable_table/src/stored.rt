// Texts that are stored in their place where they are short.
ghost use Rattle.std.specs.Prelude.{◌≡◌, ℕ, ◌+◌, ◌<◌, ◌≤◌, List, length, take, IfOk};
ghost use Rattle.variable_table.specs.Stored.{stored_bytes};

use byte_text::{ByteText, OutOfMemory};
use std::alloc::Global;

/// The most bytes of a text that takes no memory of its own: most names and values have no more.
const SHORT: usize = 24;

/// A text, which contracts see by `stored_bytes`.
#[derive(Drop)]
pub enum Stored {
    /// The first `size` of these bytes.
    Short { size: usize, bytes: [u8; 24] },
    Long(ByteText),
}

/// A short text, stored in its place.
fn short(text: &[u8]) -> Stored
    requires { length text.now ≤ 24 }
    ensures { stored_bytes result ≡ text.now }
{
    let mut bytes = [0; SHORT];
    let size = text.len();
    bytes[..size].copy_from_slice(text);
    Stored::Short { size, bytes }
}

impl Stored {
    /// A copy of these bytes.
    pub(crate) fn new(alloc: Global, text: &[u8]) -> Result<Stored, OutOfMemory>
        ensures { IfOk result (λ stored. stored_bytes stored ≡ text.now) }
    {
        if text.len() <= SHORT {
            return Ok(short(text));
        }
        Ok(Stored::Long(ByteText::from_slice(alloc, text)?))
    }

    pub(crate) fn as_slice(&self) -> &[u8]
        ensures { result.now ≡ stored_bytes self.now }
    {
        match self {
            Stored::Short { size, bytes } => bytes.get(..*size).unwrap_or(bytes),
            Stored::Long(text) => text.as_slice(),
        }
    }
}
