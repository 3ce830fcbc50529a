// Sets of names.
ghost use Rattle.std.specs.Prelude.{◌≡◌, ◌||◌, ℕ, List, false, bytes_eq, OnOk};
ghost use Rattle.race_check.specs.Names.{has as has_name};

use byte_text::OutOfMemory;
use std::alloc::Global;
use std::collections::HashSet;

/// A set of names, each there once. Contracts see it by `has`.
#[derive(Drop)]
pub struct NameSet {
    pub names: HashSet<Vec<u8>>,
    alloc: Global,
}

impl NameSet {
    /// The set without names, which takes no memory.
    #[tactic(auto, unfolding(crate::specs::Names::has))]
    pub fn new(alloc: Global) -> Self
        ensures { (name : List ℕ) → has_name result name ≡ false }
    {
        NameSet {
            names: HashSet::new(alloc),
            alloc,
        }
    }

    #[tactic(auto, unfolding(crate::specs::Names::has))]
    pub fn has(&self, name: &[u8]) -> bool
        ensures { result ≡ has_name self.now name.now }
    {
        self.names.contains(name)
    }

    /// Adds a name, which may be there.
    #[tactic(auto, unfolding(crate::specs::Names::has))]
    pub fn add(&mut self, name: &[u8]) -> Result<(), OutOfMemory>
        ensures { OnOk result ((other : List ℕ)
            → has_name self.new other ≡ (bytes_eq name.now other || has_name self.old other)) }
    {
        if self.has(name) {
            return Ok(());
        }
        let key = name.to_vec(self.alloc)?;
        self.names.insert(key)?;
        Ok(())
    }
}
