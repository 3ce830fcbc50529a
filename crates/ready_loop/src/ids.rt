// A set of ids.
ghost use Rattle.std.specs.Prelude.{◌≡◌, ◌≢◌, ℕ, false, true, OnOk};

use byte_text::OutOfMemory;
use std::alloc::Global;
use std::collections::BTreeSet;

#[derive(Drop)]
pub struct Ids {
    set: BTreeSet<u32>,
}

impl Ids {
    ghost use Rattle.ready_loop.specs.Ids.{has};

    /// The empty set, which takes no memory.
    pub fn new(alloc: Global) -> Self
        ensures { (id : ℕ) → has result id ≡ false }
    {
        Ids {
            set: BTreeSet::new(alloc),
        }
    }

    pub fn has(&self, id: u32) -> bool
        ensures { result ≡ has self.now id }
    {
        self.set.contains(&id)
    }

    pub fn add(&mut self, id: u32) -> Result<(), OutOfMemory>
        ensures own { OnOk result (has self.new id ≡ true) }
        ensures others { OnOk result ((d : ℕ) → d ≢ id → has self.new d ≡ has self.old d) }
    {
        self.set.insert(id)?;
        Ok(())
    }

    pub fn cut(&mut self, id: u32)
        ensures { (d : ℕ) → d ≢ id → has self.new d ≡ has self.old d }
    {
        self.set.remove(&id);
    }
}
