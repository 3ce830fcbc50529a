// The locations before one in its level.
ghost use Rattle.std.specs.Prelude.{◌≡◌, ℕ, List, ◌||◌, false, OnOk};

use byte_text::OutOfMemory;
use conf_block::Kind;
use conf_values::TextSet;
use std::alloc::Global;

/// What the locations before one are found by.
#[derive(Drop)]
pub struct LocationSet {
    pub prefix: TextSet,
    pub exact: TextSet,
    pub named: TextSet,
}

impl LocationSet {
    ghost use Rattle.conf_check.specs.Keys.{same_key};
    ghost use Rattle.conf_check.specs.LocationSet.{has_location};
    ghost use Rattle.conf_block.specs.declared.location.Kind.{Kind as Like};

    /// No location. Takes no memory.
    pub fn new(alloc: Global) -> Self
        ensures { (kind : Like) (text : List ℕ) → has_location result kind text ≡ false }
    {
        LocationSet {
            prefix: TextSet::new(alloc),
            exact: TextSet::new(alloc),
            named: TextSet::new(alloc),
        }
    }

    pub fn has(&self, kind: Kind, text: &[u8]) -> bool
        ensures { result ≡ has_location self.now kind text.now }
    {
        match kind {
            Kind::Prefix => self.prefix.has(text),
            Kind::Exact => self.exact.has(text),
            Kind::Named => self.named.has(text),
        }
    }

    pub fn add(&mut self, kind: Kind, text: &[u8]) -> Result<(), OutOfMemory>
        ensures { OnOk result ((k : Like) (t : List ℕ) → has_location self.new k t
            ≡ (same_key k t (kind, text.now) || has_location self.old k t)) }
    {
        match kind {
            Kind::Prefix => self.prefix.add(text),
            Kind::Exact => self.exact.add(text),
            Kind::Named => self.named.add(text),
        }
    }
}
