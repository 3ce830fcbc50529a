// A text that is withheld, and its first bytes.
ghost use Rattle.std.specs.Prelude.{◌≡◌, ℕ, ◌≤◌, ◌==◌, List, [], ◌++◌, length, IfOk, OnOk};
ghost use Rattle.withheld_text.specs.Withheld.{IsFront, IsKept};

use crate::gone::{Gone, Piece};
use byte_text::{ByteText, OutOfMemory};
use std::alloc::Global;
use std::marker::Model;

/// No more bytes of a text are kept than these: one more than a variable may have
/// (<https://nginx.org/en/docs/http/ngx_http_ssi_module.html#var_set>, `subrequest_output_buffer_size`).
const MOST_KEPT: usize = 16385;

/// A text that is withheld until it is known whether it is empty, and whether it goes into a variable. Contracts see it as the list
/// of all its bytes; its first 16385 are kept. So an answer of any length waits in little room.
#[derive(Drop)]
pub struct Withheld {
    kept: ByteText,
    // whether bytes after those are gone
    cut: bool,
    gone: Gone,
}

impl Model for Withheld {
    ghost Value = { List ℕ };

    ghost view = { λ t. t.kept ++ t.gone.bytes };

    ghost invariant = { λ t. IsKept t.cut t.kept t.gone.bytes };
}

/// The first `count` bytes of these, and those after them.
fn parted(bytes: &[u8], count: usize) -> (&[u8], &[u8])
    requires { count ≤ length bytes.now }
    ensures all { bytes.now ≡ result.0.now ++ result.1.now }
    ensures first { length result.0.now ≡ count }
{
    bytes.split_at(count)
}

impl Withheld {
    /// No byte.
    pub fn new(alloc: Global) -> Withheld
        ensures { result ≡ [] }
    {
        Withheld {
            kept: ByteText::new(alloc),
            cut: false,
            gone: Gone::new(),
        }
    }

    /// The bytes of this text.
    ///
    /// # Errors
    /// `OutOfMemory`, where there is no room for those that are kept.
    pub fn from_text(alloc: Global, text: ByteText) -> Result<Withheld, OutOfMemory>
        ensures { IfOk result (λ t. t ≡ text) }
    {
        if text.len() <= MOST_KEPT {
            return Ok(Withheld {
                kept: text,
                cut: false,
                gone: Gone::new(),
            });
        }
        let mut withheld = Withheld::new(alloc);
        withheld.extend(text.as_slice())?;
        Ok(withheld)
    }

    pub fn is_empty(&self) -> bool
        ensures { result ≡ (length self.now == 0) }
    {
        self.kept.is_empty()
    }

    /// More bytes are withheld.
    ///
    /// # Errors
    /// `OutOfMemory`, where there is no room for those that are kept; none is withheld then.
    pub fn extend(&mut self, bytes: &[u8]) -> Result<(), OutOfMemory>
        ensures { OnOk result (self.new ≡ self.old ++ bytes.now) }
    {
        let room = MOST_KEPT - self.kept.len();
        if bytes.len() <= room && !self.cut {
            self.kept.extend(bytes)?;
            return Ok(());
        }
        let (first, rest) = parted(bytes, room);
        self.kept.extend(first)?;
        self.cut = true;
        self.gone = self.gone.then(&Piece { bytes: rest });
        Ok(())
    }

    /// Those of another text are withheld too.
    ///
    /// # Errors
    /// `OutOfMemory`, where there is no room for those that are kept.
    pub fn append(&mut self, more: Withheld) -> Result<(), OutOfMemory>
        ensures { OnOk result (self.new ≡ self.old ++ more) }
    {
        if self.kept.is_empty() {
            *self = more;
            return Ok(());
        }
        self.extend(more.kept.as_slice())?;
        if more.cut {
            if self.kept.len() < MOST_KEPT {
                return Err(OutOfMemory);
            }
            self.cut = true;
            self.gone = self.gone.followed(&more.gone);
        }
        Ok(())
    }

    /// The bytes that are kept: all, or more of them than a variable may have.
    pub fn into_front(self) -> ByteText
        ensures { IsFront self result }
    {
        self.kept
    }
}
