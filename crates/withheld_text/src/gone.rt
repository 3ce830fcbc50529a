// The bytes that are kept no more, as the proofs know them.
ghost use Rattle.std.specs.Prelude.{◌≡◌, ℕ, List, [], ◌++◌};
ghost use Rattle.std.specs.Coded.{coded_ℕ, coded_list};
ghost use base.Fml.{ftrue};

use std::marker::Model;

/// The bytes of a text after those that are kept. They exist in the proofs alone: a value has no bytes.
#[derive(Drop)]
pub struct Gone {
    pub ghost bytes: { List ℕ } by { coded_list coded_ℕ },
}

impl Model for Gone {
    ghost also_owns = { λ _. ftrue };
}

/// Bytes that come after others.
#[derive(Clone, Copy)]
pub(crate) struct Piece<'a> {
    pub(crate) bytes: &'a [u8],
}

impl Gone {
    /// None are gone.
    pub(crate) fn new() -> Gone
        ensures { result.bytes ≡ [] }
    {
        Gone {}
    }

    /// These bytes are gone too.
    #[inline(always)]
    pub(crate) fn then(&self, _more: &Piece<'_>) -> Gone
        ensures { result.bytes ≡ self.now.bytes ++ _more.now.bytes.now }
    {
        Gone {}
    }

    /// Those of another text are gone too.
    #[inline(always)]
    pub(crate) fn followed(&self, _more: &Gone) -> Gone
        ensures { result.bytes ≡ self.now.bytes ++ _more.now.bytes }
    {
        Gone {}
    }
}
