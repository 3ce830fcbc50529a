// Names with their values: the variables of a document's own, and its blocks.
ghost use Rattle.std.specs.Prelude.{◌≡◌, ℕ, ◌+◌, ◌<◌, ◌≤◌, nat_lt, List, [], ◌∷◌, length, map, IfOk, OnOk, OnErr, option_map, position, bytes_eq};
ghost use Rattle.acts.specs.Vars.{look, set};
ghost use Rattle.ssi_values.specs.Tables.{without_name, bytes_beside};

use byte_text::{ByteText, OutOfMemory};
use std::alloc::Global;
use std::marker::Model;

/// A name with its value.
#[derive(Drop)]
pub struct Entry {
    name: ByteText,
    value: ByteText,
}

/// Names with their values, as a document keeps its own variables and its blocks. Contracts see the list of the names with
/// their values, in the order in which they were first put.
///
/// A name that is put again takes its new value in its old place.
#[derive(Drop)]
pub struct Table {
    alloc: Global,
    entries: Vec<Entry>,
}

impl Model for Table {
    ghost use Rattle.std.specs.Prelude.{map};
    ghost use Rattle.acts.specs.Vars.{Vars};

    ghost Value = { Vars };

    ghost view = { λ t. map (λ e. (e.name, e.value)) t.entries.items };
}

fn copied(alloc: Global, text: &ByteText) -> Result<ByteText, OutOfMemory>
    ensures { IfOk result (λ copy. copy ≡ text.now) }
{
    ByteText::from_slice(alloc, text.as_slice())
}

impl Entry {
    fn copy(&self, alloc: Global) -> Result<Entry, OutOfMemory>
        ensures { IfOk result (λ copy. copy ≡ self.now) }
    {
        Ok(Entry {
            name: copied(alloc, &self.name)?,
            value: copied(alloc, &self.value)?,
        })
    }
}

impl Table {
    /// The table without names, which takes no memory.
    pub fn new(alloc: Global) -> Self
        ensures { result ≡ [] }
    {
        Table {
            alloc,
            entries: Vec::new(alloc),
        }
    }

    /// The same table once more.
    pub fn copy(&self, alloc: Global) -> Result<Table, OutOfMemory>
        ensures { IfOk result (λ copy. copy ≡ self.now) }
    {
        let mut entries = Vec::new(alloc);
        for entry in &self.entries {
            entries.push(entry.copy(alloc)?)?;
        }
        Ok(Table { alloc, entries })
    }

    /// The value of a name, if it has one.
    #[tactic(auto, unfolding(acts::specs::Vars::look))]
    pub fn get(&self, name: &[u8]) -> Option<&[u8]>
        ensures { option_map (λ value. value.now) result ≡ look self.now name.now }
    {
        for entry in &self.entries {
            if entry.name.as_slice() == name {
                return Some(entry.value.as_slice());
            }
        }
        None
    }

    /// Gives a name a value, in place of the one that it may have.
    pub fn put(&mut self, name: &[u8], value: ByteText) -> Result<(), OutOfMemory>
        ensures ok { OnOk result (self.new ≡ set name.now value self.old) }
        ensures err { OnErr result (self.new ≡ self.old) }
    {
        match position_of(self.entries.as_slice(), name) {
            Some(at) => self.entries[at].value = value,
            None => {
                let name = ByteText::from_slice(self.alloc, name)?;
                self.entries.push(Entry { name, value })?;
            }
        }
        Ok(())
    }

    /// Takes a name and its value out.
    pub fn remove(&mut self, name: &[u8])
        ensures { self.new ≡ without_name name.now self.old }
    {
        self.entries.retain(|entry| entry.name.as_slice() != name);
    }

    /// Whether the values of all other names have more bytes together than there is room for.
    pub fn is_over(&self, name: &[u8], room: usize) -> bool
        ensures { result ≡ nat_lt room (bytes_beside name.now self.now) }
    {
        let mut left = room;
        for entry in &self.entries {
            if entry.name.as_slice() != name {
                let size = entry.value.len();
                if size > left {
                    return true;
                }
                left -= size;
            }
        }
        false
    }
}

/// Where a name is in the table.
fn position_of(entries: &[Entry], name: &[u8]) -> Option<usize>
    ensures { result ≡ position (λ e. bytes_eq e.name name.now) entries.now }
{
    entries
        .iter()
        .position(|entry| entry.name.as_slice() == name)
}
