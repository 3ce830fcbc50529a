// A set of texts, found in logarithmic time.
ghost use Rattle.std.specs.Prelude.{◌≡◌, ℕ, List, ◌||◌, false, bytes_eq, OnOk};
ghost use Rattle.conf_values.specs.TextSet.{holds};

use byte_text::OutOfMemory;
use std::alloc::Global;
use std::collections::BTreeSet;

/// A set of texts.
#[derive(Drop)]
pub struct TextSet {
    alloc: Global,
    pub keys: BTreeSet<Vec<u8>>,
}

impl TextSet {
    /// No text. Takes no memory.
    #[tactic(auto, unfolding(crate::specs::TextSet::holds))]
    pub fn new(alloc: Global) -> Self
        ensures { (text : List ℕ) → holds result.keys text ≡ false }
    {
        TextSet {
            alloc,
            keys: BTreeSet::new(alloc),
        }
    }

    #[tactic(auto, unfolding(crate::specs::TextSet::holds))]
    pub fn has(&self, text: &[u8]) -> bool
        ensures { result ≡ holds self.now.keys text.now }
    {
        self.keys.contains(text)
    }

    /// The text is in the set from now on.
    pub fn add(&mut self, text: &[u8]) -> Result<(), OutOfMemory>
        ensures { OnOk result ((t : List ℕ)
            → holds self.new.keys t ≡ (bytes_eq t text.now || holds self.old.keys t)) }
    {
        let key = text.to_vec(self.alloc)?;
        let _new = self.keys.insert(key)?;
        Ok(())
    }
}
