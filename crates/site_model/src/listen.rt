// The addresses that a server listens on.
ghost use Rattle.std.specs.Prelude.{◌≡◌, ◌∷◌, ◌++◌, List, [], OnOk, OnErr};
ghost use Rattle.http_types.specs.declared.words.Addr.{Addr as End};

use byte_text::OutOfMemory;
use http_types::Addr;
use std::alloc::Global;
use std::marker::Model;

/// The addresses of a server. Contracts see them as their list.
#[derive(Drop)]
pub struct Listens {
    addrs: Vec<Addr>,
}

impl Model for Listens {
    ghost Value = { List End };

    ghost view = { λ l. l.addrs.items };
}

impl Listens {
    pub fn new(alloc: Global) -> Self
        ensures { result ≡ [] }
    {
        Listens {
            addrs: Vec::new(alloc),
        }
    }

    pub fn as_slice(&self) -> &[Addr]
        ensures { result.now ≡ self.now }
    {
        self.addrs.as_slice()
    }

    pub fn push(&mut self, addr: Addr) -> Result<(), OutOfMemory>
        ensures ok { OnOk result (self.new ≡ self.old ++ addr ∷ []) }
        ensures err { OnErr result (self.new ≡ self.old) }
    {
        self.addrs.push(addr)?;
        Ok(())
    }
}
