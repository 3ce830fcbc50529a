// Names of commands and of parameters.
ghost use Rattle.std.specs.Prelude.{◌≡◌, ℕ, ◌≤◌, List, length, take, IfOk};
ghost use Rattle.ssi_text.specs.Commands.{lowercase as lowercase_of};
ghost use Rattle.ssi_text.specs.Names.{spelled_bytes};

use byte_text::{ByteText, OutOfMemory};
use std::alloc::Global;
use std::marker::Model;

/// The most bytes of a name that takes no memory. All that nginx's commands know have fewer.
const SHORT: usize = 16;

/// A name, which contracts see by `spelled_bytes`.
#[derive(Clone, Debug, Drop)]
pub enum Spelling {
    /// The first `size` of these bytes.
    Short { size: usize, bytes: [u8; 16] },
    Long(ByteText),
}

/// A short name in lower case.
fn short(name: &[u8]) -> Spelling
    requires { length name.now ≤ 16 }
    ensures { spelled_bytes result ≡ lowercase_of name.now }
{
    let mut bytes = [0; SHORT];
    let size = name.len();
    bytes[..size].copy_from_slice(name);
    // Also those that are none of the name: a number of bytes that is known takes no loop.
    bytes.make_ascii_lowercase();
    Spelling::Short { size, bytes }
}

/// A name in lower case, which takes memory only where it is long. Contracts see the list of its bytes.
#[derive(Clone, Debug, Drop)]
pub struct Name {
    spelling: Spelling,
}

impl Model for Name {
    ghost use Rattle.std.specs.Prelude.{ℕ, List};
    ghost use Rattle.ssi_text.specs.Names.{spelled_bytes};

    ghost Value = { List ℕ };

    ghost view = { λ n. spelled_bytes n.spelling };
}

impl Name {
    /// These bytes in lower case.
    #[inline(always)]
    pub fn lowercase(alloc: Global, name: &[u8]) -> Result<Name, OutOfMemory>
        ensures { IfOk result (λ lower. lower ≡ lowercase_of name.now) }
    {
        if name.len() <= SHORT {
            return Ok(Name {
                spelling: short(name),
            });
        }
        let mut bytes = name.to_vec(alloc)?;
        bytes.as_mut_slice().make_ascii_lowercase();
        Ok(Name {
            spelling: Spelling::Long(ByteText::from_vec(bytes)),
        })
    }

    pub fn as_slice(&self) -> &[u8]
        ensures { result.now ≡ self.now }
    {
        match &self.spelling {
            Spelling::Short { size, bytes } => bytes.get(..*size).unwrap_or(bytes),
            Spelling::Long(text) => text.as_slice(),
        }
    }
}
