// The addresses that the directives before one listen on, found in logarithmic time.
ghost use Rattle.std.specs.Prelude.{◌≡◌, ◌||◌, false, OnOk};
ghost use Rattle.http_types.specs.declared.words.Addr.{Addr as End};
ghost use Rattle.conf_check.specs.Ends.{same_addr, with_end, key_of, has_end};

use byte_text::OutOfMemory;
use http_types::Addr;
use std::alloc::Global;
use std::collections::BTreeSet;
use std::net::IpAddr;

/// A set of addresses.
#[derive(Drop)]
pub struct Ends {
    pub keys: BTreeSet<((u8, u16), u128)>,
}

/// An address as a key: its family and port, and its bits.
fn key_of(addr: Addr) -> ((u8, u16), u128)
    ensures { result ≡ key_of addr }
{
    match addr.ip {
        IpAddr::V4(ip) => ((4, addr.port), u128::from(ip.to_bits())),
        IpAddr::V6(ip) => ((6, addr.port), ip.to_bits()),
    }
}

impl Ends {
    /// No address. Takes no memory.
    #[tactic(auto, unfolding(crate::specs::Ends::has_end))]
    pub fn new(alloc: Global) -> Self
        ensures { (q : End) → has_end result.keys q ≡ false }
    {
        Ends {
            keys: BTreeSet::new(alloc),
        }
    }

    #[tactic(auto, unfolding(crate::specs::Ends::has_end))]
    pub fn has(&self, addr: Addr) -> bool
        ensures { result ≡ has_end self.now.keys addr }
    {
        let key = key_of(addr);
        self.keys.contains(&key)
    }

    pub fn add(&mut self, addr: Addr) -> Result<(), OutOfMemory>
        ensures { OnOk result ((q : End) →
            has_end self.new.keys q ≡ (same_addr addr q || has_end self.old.keys q)) }
    {
        let _new = self.keys.insert(key_of(addr))?;
        Ok(())
    }

    /// One address more, if there is one.
    pub fn add_any(&mut self, addr: Option<Addr>) -> Result<(), OutOfMemory>
        ensures { OnOk result ((q : End) →
            has_end self.new.keys q ≡ with_end addr (has_end self.old.keys) q) }
    {
        match addr {
            None => Ok(()),
            Some(addr) => self.add(addr),
        }
    }
}
